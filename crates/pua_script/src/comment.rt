//! What stands on a line of a script before its comment.

ghost use Rattle.std.specs.Prelude.{◌≡◌, true, option_map};
ghost use Rattle.pua_script.specs.Scripts.{before_comment, is_blank, text_in};

use pua_calls::Rules;

/// What a line says: by OpenBSD's rules what stands before its comment and the blanks before that,
/// where it has one, and else all of it. A field that begins with `#` begins a comment.
pub fn text_in(rules: Rules, line: &[u8]) -> &[u8]
    ensures { result.now ≡ text_in rules line.now }
{
    match rules {
        Rules::Standard => line,
        Rules::Openbsd => before_comment(line).unwrap_or(line),
    }
}

/// Whether a line may have this text and ask for nothing: by OpenBSD's rules blanks alone, or none.
pub fn is_blank(rules: Rules, text: &[u8]) -> bool
    ensures { result ≡ is_blank rules text.now }
{
    match rules {
        Rules::Standard => false,
        Rules::Openbsd => text.iter().all(|byte| *byte == b' '),
    }
}

/// What stands before a comment and the blanks before that, where a `#` begins one: as the first
/// byte, or after a blank.
fn before_comment(line: &[u8]) -> Option<&[u8]>
    ensures { option_map (λ text. text.now) result ≡ before_comment true line.now }
{
    let mut length = 0;
    let mut may_begin = true;
    let mut at = 0;
    while at < line.len() {
        let byte = line[at];
        if may_begin && byte == b'#' {
            return Some(&line[..length]);
        }
        may_begin = byte == b' ';
        at += 1;
        if !may_begin {
            length = at;
        }
    }
    None
}
