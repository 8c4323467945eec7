use aria_tables::Role;
use snap_tree::NodeId;

/// The nearest HTML `table` above a node, and its role.
#[derive(Clone, Copy, Debug)]
pub struct TableAbove {
    pub node: NodeId,
    pub role: Option<Role>,
}

/// What the ancestors of a node say of it, as contracts see it. Code has it as `lent::Above`.
#[derive(Clone, Copy, Debug)]
pub struct Above {
    /// The tag of an ancestor, in any name space, is article, aside, main, nav or section.
    pub in_section: bool,
    /// The parent is an HTML ul, ol or menu.
    pub in_list: bool,
    /// The nearest HTML `table`.
    pub table: Option<TableAbove>,
    /// The nearest HTML `label`.
    pub label: Option<NodeId>,
    /// An ancestor has aria-hidden with the value `true`.
    pub hidden: bool,
    /// An ancestor is an HTML `fieldset` with `disabled`.
    pub disabled: bool,
}
