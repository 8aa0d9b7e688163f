//! Lists of names, with a comma and a space between each two.
ghost use Rattle.std.specs.Prelude.{◌≡◌, ◌++◌, [], OnOk, take, drop};
ghost use Rattle.aw_term.specs.Rules.{get};
ghost use Rattle.aw_spec_writer.specs.LineTexts.{names_text, params_text};

use aw_list::Text;
use std::alloc::AllocError;

/// The name of a variable, where these are the names of a rule's variables. A number past the last prints as an empty name.
pub(crate) fn name_at(vars: &[Text], number: u8) -> &[u8]
    ensures { result.now ≡ get [] vars.now number }
{
    match vars.get(usize::from(number)) {
        Some(name) => name.as_slice(),
        None => &[],
    }
}

/// The first names, and those behind them.
pub(crate) fn split_names(names: &[Text], count: usize) -> (&[Text], &[Text])
    ensures first { result.0.now ≡ take count names.now }
    ensures behind { result.1.now ≡ drop count names.now }
{
    names.split_at(count.min(names.len()))
}

/// Adds names, with a comma and a space between each two.
pub(crate) fn push_names(text: &mut Text, names: &[Text]) -> Result<(), AllocError>
    ensures { OnOk result (text.new ≡ text.old ++ names_text names.now) }
{
    let mut separator = b"".as_slice();
    for name in names {
        text.push_bytes(separator)?;
        text.push_bytes(name.as_slice())?;
        separator = b", ";
    }
    Ok(())
}

/// Adds the parameters of a rule in braces, or nothing where there are none.
pub(crate) fn push_params(text: &mut Text, names: &[Text]) -> Result<(), AllocError>
    ensures { OnOk result (text.new ≡ text.old ++ params_text names.now) }
{
    if names.is_empty() {
        return Ok(());
    }
    text.push_bytes(b" {")?;
    push_names(text, names)?;
    text.push_bytes(b"}")
}
