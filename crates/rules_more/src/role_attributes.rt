ghost use Rattle.std.specs.Prelude.{◌≡◌};
ghost use Rattle.rules_more.specs.RoleAttributes.{permitted_roles};

use aria_tables::{AriaAttr, Role};

/// The roles on which a state or property is permitted (WAI-ARIA 1.2, "Used in Roles"); none for one of which nothing is
/// asked.
#[tactic(auto, unfolding(crate::specs::RoleAttributes::permitted_roles))]
pub fn permitted_roles(attr: AriaAttr) -> &'static [Role]
    ensures { result.now ≡ permitted_roles attr }
{
    match attr {
        AriaAttr::Checked => &[
            Role::Checkbox,
            Role::Menuitemcheckbox,
            Role::Menuitemradio,
            Role::OptionRole,
            Role::Radio,
            Role::Switch,
            Role::Treeitem,
        ],
        AriaAttr::Expanded => &[
            Role::Application,
            Role::Button,
            Role::Checkbox,
            Role::Columnheader,
            Role::Combobox,
            Role::Gridcell,
            Role::Link,
            Role::Listbox,
            Role::Menuitem,
            Role::Menuitemcheckbox,
            Role::Menuitemradio,
            Role::RowRole,
            Role::Rowheader,
            Role::Switch,
            Role::Tab,
            Role::Treeitem,
        ],
        AriaAttr::Level => &[
            Role::Heading,
            Role::Listitem,
            Role::RowRole,
            Role::Tablist,
            Role::Treeitem,
        ],
        AriaAttr::Modal => &[Role::Alertdialog, Role::Dialog],
        AriaAttr::Multiline | AriaAttr::Placeholder => &[Role::Searchbox, Role::Textbox],
        AriaAttr::Multiselectable => &[
            Role::Grid,
            Role::Listbox,
            Role::Tablist,
            Role::TreeRole,
            Role::Treegrid,
        ],
        AriaAttr::Pressed => &[Role::Button],
        AriaAttr::Selected => &[
            Role::Columnheader,
            Role::Gridcell,
            Role::OptionRole,
            Role::RowRole,
            Role::Rowheader,
            Role::Tab,
            Role::Treeitem,
        ],
        AriaAttr::Sort => &[Role::Columnheader, Role::Rowheader],
        _ => &[],
    }
}
