ghost use Rattle.std.specs.Prelude.{◌≡◌};
ghost use Rattle.aria_tables.specs.Owning.{allowed_owned, looks_through};

use crate::role::Role;

/// The roles that an element of this explicit role may own (WAI-ARIA 1.2, "Allowed Accessibility Child
/// Roles"); none for a role that isn't asked what it owns, a treegrid among them.
pub fn allowed_owned(role: Role) -> &'static [Role]
    ensures { result.now ≡ allowed_owned role }
{
    match role {
        Role::ListRole => &[Role::Listitem],
        Role::Listbox => &[Role::OptionRole],
        Role::Menu | Role::Menubar => &[
            Role::Menuitem,
            Role::Menuitemcheckbox,
            Role::Menuitemradio,
            Role::Separator,
        ],
        Role::Tablist => &[Role::Tab],
        Role::TreeRole => &[Role::Treeitem],
        Role::TableRole | Role::Grid => &[Role::RowRole, Role::Caption],
        Role::Rowgroup => &[Role::RowRole],
        Role::RowRole => &[
            Role::Cell,
            Role::Columnheader,
            Role::Gridcell,
            Role::Rowheader,
        ],
        Role::Feed => &[Role::Article],
        _ => &[],
    }
}

/// The roles that an element of this role looks through when it owns: in the place of an element of
/// one of them stands what that element owns itself.
pub fn looks_through(role: Role) -> &'static [Role]
    ensures { result.now ≡ looks_through role }
{
    match role {
        Role::Listbox | Role::Menu | Role::Menubar | Role::TreeRole => &[Role::Group],
        Role::TableRole | Role::Grid => &[Role::Rowgroup],
        _ => &[],
    }
}
