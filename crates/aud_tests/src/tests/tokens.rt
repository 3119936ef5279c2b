// The reserved words in any case and the delimiters, in the order of their kinds (RM 2.2, 2.9).

use aud_lex::fault::LexFault;
use aud_lex::lex;
use std::alloc::Global;
use std::process::Abort;

// Tests that the text has `count` tokens, whose kinds stand in order in the list of kinds, from `first` on.
fn counts(
    rt: &impl Abort,
    alloc: Global,
    text: &[u8],
    first: u8,
    count: usize,
) -> Result<(), LexFault> {
    let tokens = lex(alloc, text)?;
    assert!(rt; tokens.len() == count);
    let mut code = first;
    for token in &tokens {
        assert!(rt; token.kind().number() == code);
        code = code.saturating_add(1);
    }
    Ok(())
}

const RESERVED: &[u8] =
    b"abort ABS Abstract accept access aliased all and array at begin body case constant \
    declare delay delta digits do else elsif end entry exception exit for function generic goto \
    if in interface is limited loop mod new not null of or others out overriding package \
    parallel pragma private procedure protected raise range record rem renames requeue return \
    reverse select separate some subtype synchronized tagged task terminate then type until use \
    when while with xOR";

const DELIMITERS: &[u8] = b"& ' ( ) * + , - . / : ; < = > | => .. := /= >= <= ** << >> <>";

#[test]
fn each_word_and_delimiter(rt: HostRuntime) -> Result<(), LexFault> {
    counts(&rt, rt.alloc(), RESERVED, 0, 74)?;
    counts(&rt, rt.alloc(), DELIMITERS, 74, 26)
}
