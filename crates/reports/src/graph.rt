ghost use Rattle.std.specs.Prelude.{◌≡◌, [], ◌∷◌, ◌++◌, OnOk};
ghost use Rattle.json.specs.Token.{key, string};
ghost use Rattle.reports.specs.Writing.{tokens_of};
ghost use Rattle.reports.specs.Terms.{text_of};
ghost use Rattle.reports.specs.Earl.{named, typed};

use crate::term::Term;
use json::Writer;
use snap_tree::OutOfMemory;

// Writes a member whose value is a text.
pub(crate) fn put_text(writer: &mut Writer, name: Term, text: &str) -> Result<(), OutOfMemory>
    ensures before { OnOk result (writer.new.before ≡ writer.old.before) }
    ensures tokens { OnOk result (writer.new.tokens ≡ writer.old.tokens ++ (key (text_of name) ∷ string text.now ∷ [])) }
{
    writer.key(name.text())?;
    writer.string(text)?;
    Ok(())
}

// Writes a member whose value is a thing by its name.
pub(crate) fn put_named(writer: &mut Writer, name: Term, id: &str) -> Result<(), OutOfMemory>
    ensures before { OnOk result (writer.new.before ≡ writer.old.before) }
    ensures tokens { OnOk result (writer.new.tokens ≡ writer.old.tokens ++ (key (text_of name) ∷ tokens_of (named id.now))) }
{
    writer.key(name.text())?;
    writer.begin_object()?;
    put_text(writer, Term::AtId, id)?;
    writer.end_object()?;
    Ok(())
}

// Writes a member whose value is a thing by its name with its class.
pub(crate) fn put_typed(
    writer: &mut Writer,
    name: Term,
    id: &str,
    class: Term,
) -> Result<(), OutOfMemory>
    ensures before { OnOk result (writer.new.before ≡ writer.old.before) }
    ensures tokens { OnOk result (writer.new.tokens ≡ writer.old.tokens ++ (key (text_of name) ∷ tokens_of (typed id.now (text_of class)))) }
{
    writer.key(name.text())?;
    writer.begin_object()?;
    put_text(writer, Term::AtId, id)?;
    put_text(writer, Term::AtType, class.text())?;
    writer.end_object()?;
    Ok(())
}
