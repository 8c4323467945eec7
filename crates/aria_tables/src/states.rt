ghost use Rattle.std.specs.Prelude.{◌≡◌};
ghost use Rattle.aria_tables.specs.States.{required_states};

use crate::attr::AriaAttr;
use crate::role::Role;

/// The states and properties that an element of this explicit role must have (WAI-ARIA 1.2, "Required
/// States and Properties"); none for a role that requires nothing. A combobox isn't asked for
/// `aria-controls`, and a separator for nothing.
pub fn required_states(role: Role) -> &'static [AriaAttr]
    ensures { result.now ≡ required_states role }
{
    match role {
        Role::Checkbox
        | Role::Radio
        | Role::Switch
        | Role::Menuitemcheckbox
        | Role::Menuitemradio => &[AriaAttr::Checked],
        Role::Heading => &[AriaAttr::Level],
        Role::Slider | Role::Meter => &[AriaAttr::Valuenow],
        Role::Scrollbar => &[AriaAttr::Valuenow, AriaAttr::Controls],
        Role::Combobox => &[AriaAttr::Expanded],
        _ => &[],
    }
}
