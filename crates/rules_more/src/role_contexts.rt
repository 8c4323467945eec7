ghost use Rattle.std.specs.Prelude.{◌≡◌};
ghost use Rattle.rules_more.specs.RoleContexts.{context_roles, passed_roles};

use aria_tables::Role;

/// The roles in one of which an element of this role has to stand (WAI-ARIA 1.2, "Required Accessibility Parent Role");
/// none for a role of which nothing is asked.
#[tactic(auto, unfolding(crate::specs::RoleContexts::context_roles))]
pub fn context_roles(role: Role) -> &'static [Role]
    ensures { result.now ≡ context_roles role }
{
    match role {
        Role::Listitem => &[Role::ListRole, Role::Directory],
        Role::OptionRole => &[Role::Listbox],
        Role::Menuitem | Role::Menuitemcheckbox | Role::Menuitemradio => &[
            Role::Menu,
            Role::Menubar,
        ],
        Role::Tab => &[Role::Tablist],
        Role::Treeitem => &[Role::TreeRole, Role::Treeitem],
        Role::RowRole | Role::Rowgroup => &[Role::TableRole, Role::Grid, Role::Treegrid],
        Role::Cell | Role::Columnheader | Role::Gridcell | Role::Rowheader => &[Role::RowRole],
        _ => &[],
    }
}

/// The roles that are passed over on the way up to the context of an element of this role.
pub fn passed_roles(role: Role) -> &'static [Role]
    ensures { result.now ≡ passed_roles role }
{
    match role {
        Role::RowRole => &[
            Role::NoneRole,
            Role::Presentation,
            Role::Generic,
            Role::Group,
            Role::Rowgroup,
        ],
        _ => &[
            Role::NoneRole,
            Role::Presentation,
            Role::Generic,
            Role::Group,
        ],
    }
}
