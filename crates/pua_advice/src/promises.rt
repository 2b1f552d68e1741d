//! What is wrong with promises of which a call needs one.

ghost use Rattle.std.specs.Prelude.{◌≡◌, IfOk, option_map};
ghost use Rattle.pua_advice.specs.Advice.{advice_seen, keyword_advice, uses_advice};

use crate::advice::Advice;
use crate::arguments::Arguments;
use pua_calls::Promises;
use pua_script::further_set;
use pua_tree::OutOfMemory;
use std::alloc::Global;

/// What to say of a field after the word of a call that needs one of several promises, None where
/// the field is promises with `|` between them: none of them twice, and none `error`.
pub(crate) fn of_promises<'a>(
    alloc: Global,
    call: &'a [u8],
    field: &'a [u8],
) -> Result<Option<Advice<'a>>, OutOfMemory>
    ensures { IfOk result (λ advice. option_map advice_seen advice
        ≡ uses_advice call.now field.now) }
{
    let mut sets = Vec::new(alloc);
    for word in field.split(|byte| *byte == b'|') {
        let Some(set) = further_set(sets.as_slice(), word) else {
            return Ok(Some(of_keyword(call, word)));
        };
        let Ok(()) = sets.push(set) else {
            return Err(OutOfMemory);
        };
    }
    Ok(None)
}

/// Why a word is no promise, or none that does not stand before it.
fn of_keyword<'a>(call: &'a [u8], word: &'a [u8]) -> Advice<'a>
    ensures { advice_seen result ≡ keyword_advice call.now word.now }
{
    if word.is_empty() || word.contains(&b',') {
        return Advice::Takes(call, Arguments::AnyPromises);
    }
    match Promises::read(word) {
        Err(_unknown) => Advice::UnknownPromise(word),
        Ok(set) if set.contains(Promises::ERROR) => Advice::UnneededPromise(word),
        Ok(_) => Advice::RepeatedPromise(word),
    }
}
