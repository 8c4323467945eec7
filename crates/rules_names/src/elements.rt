ghost use Rattle.std.specs.Prelude.{◌≡◌};
ghost use Rattle.acc_tree.specs.Seen.{seen_row};
ghost use Rattle.rules_names.specs.Elements.{is_html_element, is_svg_element, is_image_type, is_img, is_image_input};

use acc_tree::{InputType, Tag, html_tag, input_type};
use snap_tree::{Body, Row, Space};

/// Whether the node is an element of HTML.
pub fn is_html_element(row: &Row) -> bool
    ensures { result ≡ is_html_element (seen_row row.now) }
{
    matches!(
        row.body.get(),
        Body::Element {
            space: Space::Html,
            ..
        }
    )
}

/// Whether the node is an element of SVG.
pub(crate) fn is_svg_element(row: &Row) -> bool
    ensures { result ≡ is_svg_element (seen_row row.now) }
{
    matches!(
        row.body.get(),
        Body::Element {
            space: Space::Svg,
            ..
        }
    )
}

/// Whether the node is an HTML `img`.
pub fn is_img(row: &Row) -> bool
    ensures { result ≡ is_img (seen_row row.now) }
{
    matches!(html_tag(row), Some(Tag::Img))
}

fn is_image_type(kind: InputType) -> bool
    ensures { result ≡ is_image_type kind }
{
    matches!(kind, InputType::Image)
}

/// Whether the node is an HTML `input` of type image.
pub(crate) fn is_image_input(row: &Row) -> bool
    ensures { result ≡ is_image_input (seen_row row.now) }
{
    match html_tag(row) {
        Some(Tag::Input) => is_image_type(input_type(row)),
        _ => false,
    }
}
