ghost use Rattle.std.specs.Prelude.{◌≡◌, None, Some};
ghost use Rattle.snap_json.specs.declared.limits.TheConstants.{MOST_SNAPSHOT_BYTES, MOST_ADDRESS_BYTES, SENT, KEPT};

/// The greatest number of bytes of a snapshot that is sent.
pub const MOST_SNAPSHOT_BYTES: usize = 8_388_608;

/// The greatest number of bytes of the address in a snapshot that is sent, before it is parsed.
pub const MOST_ADDRESS_BYTES: usize = 65_536;

/// How many bytes a snapshot and its address may have. None is no limit.
#[derive(Clone, Copy, Debug)]
pub(crate) struct Limits {
    pub snapshot: Option<usize>,
    pub address: Option<usize>,
}

/// The limits on a snapshot that is sent.
pub(crate) const SENT: Limits = Limits {
    snapshot: Some(MOST_SNAPSHOT_BYTES),
    address: Some(MOST_ADDRESS_BYTES),
};

/// What was written and kept may be longer than what is sent, and so may its address.
pub(crate) const KEPT: Limits = Limits {
    snapshot: None,
    address: None,
};

/// The limits of snapshots, as numbers of bytes. Definitions name the limits, so these clauses alone say how
/// much each is: what is sent has both, and what was kept has none.
pub fn laws_of_limits()
    ensures snapshot { MOST_SNAPSHOT_BYTES ≡ 8388608 }
    ensures address { MOST_ADDRESS_BYTES ≡ 65536 }
    ensures sent { SENT ≡ record { snapshot = Some 8388608; address = Some 65536 } }
    ensures kept { KEPT ≡ record { snapshot = None; address = None } }
{}
