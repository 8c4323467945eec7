ghost use Rattle.std.specs.Prelude.{◌≡◌, option_map};
ghost use Rattle.std.specs.Option.{option_copied};
ghost use Rattle.acc_tree.specs.Frames.{nothing_above, table_at};
ghost use Rattle.acc_tree.specs.Seen.{seen_row};

use crate::above::TableAbove;
use crate::roles::table_role;
use snap_tree::{NodeId, Row};
use std::marker::Model;

/// What the ancestors of a node say of it. It holds the row of the nearest table, whose role is looked up
/// only where it is asked for: a `role` can be a long list, and few nodes ask.
#[derive(Drop)]
pub struct Above<'a> {
    pub(crate) in_section: bool,
    pub(crate) in_list: bool,
    pub(crate) table: Option<&'a Row>,
    pub(crate) label: Option<NodeId>,
    pub(crate) hidden: bool,
    pub(crate) disabled: bool,
}

impl<'a> Model for Above<'a> {
    ghost use Rattle.std.specs.Prelude.{option_map};
    ghost use Rattle.std.specs.Option.{option_copied};
    ghost use Rattle.acc_tree.specs.declared.above.Above.{Above};

    ghost Value = { Above };

    ghost use Rattle.acc_tree.specs.Frames.{table_at};
    ghost use Rattle.acc_tree.specs.Seen.{seen_row};

    ghost view = { λ a. record {
      in_section = a.in_section;
      in_list = a.in_list;
      table = option_map (λ row. table_at (seen_row row)) (option_copied a.table);
      label = a.label;
      hidden = a.hidden;
      disabled = a.disabled;
    } };
}

fn table_at(row: &Row) -> TableAbove
    ensures { result ≡ table_at (seen_row row.now) }
{
    TableAbove {
        node: row.id,
        role: table_role(row),
    }
}

impl<'a> Above<'a> {
    /// What is above a root: nothing.
    pub const fn nothing() -> Self
        ensures { result ≡ nothing_above }
    {
        Above {
            in_section: false,
            in_list: false,
            table: None,
            label: None,
            hidden: false,
            disabled: false,
        }
    }

    /// What is above a node of which only this is asked: whether the parent is an HTML ul, ol or menu.
    pub(crate) fn in_list(in_list: bool) -> Self
        ensures { result.in_list ≡ in_list }
    {
        Above {
            in_section: false,
            in_list,
            table: None,
            label: None,
            hidden: false,
            disabled: false,
        }
    }

    /// What is above a node of which only the nearest HTML `table` is asked.
    pub(crate) fn in_table(table: Option<&'a Row>) -> Self
        ensures { result.table ≡ option_map (λ row. table_at (seen_row row)) (option_copied table.entry) }
    {
        Above {
            in_section: false,
            in_list: false,
            table,
            label: None,
            hidden: false,
            disabled: false,
        }
    }

    /// The same once more.
    pub(crate) fn copied(&self) -> Self
        ensures { result ≡ self.now }
    {
        Above {
            in_section: self.in_section,
            in_list: self.in_list,
            table: self.table,
            label: self.label,
            hidden: self.hidden,
            disabled: self.disabled,
        }
    }

    /// Whether the tag of an ancestor, in any name space, is article, aside, main, nav or section.
    pub fn is_in_section(&self) -> bool
        ensures { result ≡ self.now.in_section }
    {
        self.in_section
    }

    /// Whether the parent is an HTML ul, ol or menu.
    pub fn is_in_list(&self) -> bool
        ensures { result ≡ self.now.in_list }
    {
        self.in_list
    }

    /// The nearest HTML `table`, with its role, which is looked up here.
    pub fn table(&self) -> Option<TableAbove>
        ensures { result ≡ self.now.table }
    {
        match self.table {
            Some(row) => Some(table_at(row)),
            None => None,
        }
    }

    /// The nearest HTML `label`.
    pub fn label(&self) -> Option<NodeId>
        ensures { result ≡ self.now.label }
    {
        self.label
    }

    /// Whether an ancestor has aria-hidden with the value `true`.
    pub fn is_hidden(&self) -> bool
        ensures { result ≡ self.now.hidden }
    {
        self.hidden
    }

    /// Whether an ancestor is an HTML `fieldset` with `disabled`.
    pub fn is_disabled(&self) -> bool
        ensures { result ≡ self.now.disabled }
    {
        self.disabled
    }
}
