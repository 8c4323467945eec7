ghost use Rattle.std.specs.Prelude.{◌≡◌, ◌≤◌, take, drop, length};
ghost use Rattle.std.specs.List.{prefix_len};
ghost use Rattle.std.specs.Option.{option_copied};
ghost use Rattle.judged_rows.specs.Again.{is_of_rule};
ghost use Rattle.judged_rows.specs.Merging.{head_on, after};

use judge_core::OutRow;
use rule_core::RuleNo;
use snap_tree::NodeId;

/// The leading rows that are of a rule, and those after them.
pub fn split_rule(rows: &[OutRow], rule: RuleNo) -> (&[OutRow], &[OutRow])
    ensures leading { result.0.now ≡ take (prefix_len (is_of_rule rule) rows.now) rows.now }
    ensures later { result.1.now ≡ drop (prefix_len (is_of_rule rule) rows.now) rows.now }
{
    let count = leading(rows, rule);
    rows.split_at(count)
}

fn leading(rows: &[OutRow], rule: RuleNo) -> usize
    ensures count { result ≡ prefix_len (is_of_rule rule) rows.now }
    ensures within { result ≤ length rows.now }
{
    rows.iter().take_while(|row| row.rule.0 == rule.0).count()
}

/// The leading row, where it is on this node.
pub fn head_on(rows: &[OutRow], node: NodeId) -> Option<&OutRow>
    ensures { option_copied result ≡ head_on node rows.now }
{
    match rows.first() {
        Some(row) if row.node == node => Some(row),
        _ => None,
    }
}

/// The rows after the leading one, where that is on this node; else all.
pub fn after(rows: &[OutRow], node: NodeId) -> &[OutRow]
    ensures { result.now ≡ after node rows.now }
{
    match rows.split_first() {
        Some((row, after)) if row.node == node => after,
        _ => rows,
    }
}
