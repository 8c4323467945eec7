ghost use Rattle.std.specs.Prelude.{◌≡◌, codes, unwrap_or};
ghost use Rattle.std.specs.Option.{option_copied};
ghost use Rattle.acc_tree.specs.Seen.{seen_row};
ghost use Rattle.acc_name.specs.Hosts.{is_svg, input_host, tag_host, host_of, value_or, caption_in, is_legend, is_figcaption, is_table_caption, captions, is_captioning};

use acc_tree::{Attribute, InputType, Tag, attr, html_tag, input_type};
use snap_tree::{Body, Row, Space, Text, same_folded};

/// The children that caption an element.
#[derive(Clone, Copy, Debug, PartialEq, Eq)]
pub(crate) enum CaptionKind {
    Legend,
    Figcaption,
    Caption,
    SvgTitle,
}

/// Where the text of an element's own kind stands.
#[derive(Clone, Copy, Debug, PartialEq, Eq)]
pub(crate) enum Host {
    /// Its `alt`.
    Alternative,
    /// Its `value`, else `Submit`.
    Submit,
    /// Its `value`, else `Reset`.
    Reset,
    /// Its `value`.
    Plain,
    /// Its `label`.
    Group,
    /// Its first child that captions it.
    Captioned(CaptionKind),
    /// It has no such text.
    Nothing,
}

/// Whether a row is an element of SVG with this tag, which compares ASCII case-insensitively.
fn is_svg(row: &Row, word: &str) -> bool
    ensures { result ≡ is_svg word.now (seen_row row.now) }
{
    match row.body.get() {
        Body::Element {
            space: Space::Svg,
            tag,
            ..
        } => same_folded(word, tag.as_str()),
        _ => false,
    }
}

fn input_host(kind: InputType) -> Host
    ensures { result ≡ input_host kind }
{
    match kind {
        InputType::Image => Host::Alternative,
        InputType::Submit => Host::Submit,
        InputType::Reset => Host::Reset,
        InputType::Button => Host::Plain,
        _ => Host::Nothing,
    }
}

fn tag_host(row: &Row, tag: Tag) -> Host
    ensures { result ≡ tag_host (seen_row row.now) tag }
{
    match tag {
        Tag::Img | Tag::Area => Host::Alternative,
        Tag::Input => input_host(input_type(row)),
        Tag::Optgroup => Host::Group,
        Tag::Fieldset => Host::Captioned(CaptionKind::Legend),
        Tag::Figure => Host::Captioned(CaptionKind::Figcaption),
        Tag::Table => Host::Captioned(CaptionKind::Caption),
        _ => Host::Nothing,
    }
}

/// Where the text of the element's own kind stands.
pub(crate) fn host_of(row: &Row) -> Host
    ensures { result ≡ host_of (seen_row row.now) }
{
    if is_svg(row, "svg") {
        return Host::Captioned(CaptionKind::SvgTitle);
    }
    match html_tag(row) {
        Some(tag) => tag_host(row, tag),
        None => Host::Nothing,
    }
}

/// The `value` of a row, be it blank, and these words where it hasn't got one.
pub(crate) fn value_or<'a>(row: &'a Row, words: &'a str) -> &'a str
    ensures { result.now ≡ value_or words.now (seen_row row.now) }
{
    match attr(row, Attribute::Value) {
        Some(value) => value.as_str(),
        None => words,
    }
}

/// Which children caption an element.
pub(crate) fn caption_in(host: Host) -> Option<CaptionKind>
    ensures { result ≡ caption_in host }
{
    match host {
        Host::Captioned(kind) => Some(kind),
        _ => None,
    }
}

fn is_legend(tag: Option<Tag>) -> bool
    ensures { result ≡ is_legend tag }
{
    matches!(tag, Some(Tag::Legend))
}

fn is_figcaption(tag: Option<Tag>) -> bool
    ensures { result ≡ is_figcaption tag }
{
    matches!(tag, Some(Tag::Figcaption))
}

fn is_table_caption(tag: Option<Tag>) -> bool
    ensures { result ≡ is_table_caption tag }
{
    matches!(tag, Some(Tag::Caption))
}

fn captions(kind: CaptionKind, row: &Row) -> bool
    ensures { result ≡ captions kind (seen_row row.now) }
{
    match kind {
        CaptionKind::Legend => is_legend(html_tag(row)),
        CaptionKind::Figcaption => is_figcaption(html_tag(row)),
        CaptionKind::Caption => is_table_caption(html_tag(row)),
        CaptionKind::SvgTitle => is_svg(row, "title"),
    }
}

/// Whether a child captions its parent, given which children do.
pub(crate) fn is_captioning(kind: Option<CaptionKind>, row: &Row) -> bool
    ensures { result ≡ is_captioning kind (seen_row row.now) }
{
    match kind {
        Some(kind) => captions(kind, row),
        None => false,
    }
}
