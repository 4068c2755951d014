//! Where parentheses stand wrong.

ghost use Rattle.std.specs.Prelude.{◌≡◌, ◌≤◌, drop, length, position};
ghost use Rattle.java_model.specs.SearchPattern.Parts.{is_paren, fault_after_left, fault_of_params, paren_fault};

use crate::limits::has_params;
use java_tree::What;

const LEFT: u8 = b'(';

const RIGHT: u8 = b')';

fn is_paren(byte: u8) -> bool
    ensures { result ≡ is_paren byte }
{
    byte == LEFT || byte == RIGHT
}

/// Where parentheses stand wrong in a text after its first `(`.
fn fault_after_left(text: &[u8], start: usize) -> Option<usize>
    requires { start ≤ length text.now }
    ensures { result ≡ fault_after_left start (drop start text.now) }
{
    for i in start..text.len() {
        if text[i] == LEFT {
            return Some(i);
        }
        if text[i] == RIGHT {
            let end = i + 1;
            return if end == text.len() { None } else { Some(end) };
        }
    }
    Some(text.len())
}

/// The same of the text of an element that has parameters.
fn fault_of_params(text: &[u8]) -> Option<usize>
    ensures { result ≡ fault_of_params 0 text.now }
{
    for (i, byte) in text.iter().enumerate() {
        if *byte == RIGHT {
            return Some(i);
        }
        if *byte == LEFT {
            return fault_after_left(text, i + 1);
        }
    }
    None
}

fn first_paren(text: &[u8]) -> Option<usize>
    ensures { result ≡ position is_paren text.now }
{
    text.iter().position(|byte| is_paren(*byte))
}

/// Where parentheses stand wrong in the text of a pattern, if they do.
pub(crate) fn paren_fault(what: What, text: &str) -> Option<usize>
    ensures { result ≡ paren_fault what text.now }
{
    if has_params(what) {
        fault_of_params(text.as_bytes())
    } else {
        first_paren(text.as_bytes())
    }
}
