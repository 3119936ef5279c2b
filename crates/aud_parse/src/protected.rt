// Protected objects, and what ends their bodies (RM 9.4).

ghost use Rattle.std.specs.Prelude.{◌∷◌, [], ℕ};
ghost use Rattle.aud_lex.specs.declared.token.Kind.TheVariants as kind;
ghost use Rattle.aud_grammar.specs.Grammar as g;
ghost use Rattle.aud_grammar.specs.Grammar.{N, T, Opt, Rep};
ghost use Rattle.aud_grammar.specs.Actions.{an_ident, token, made};
ghost use Rattle.aud_cursor.specs.Ties.Items.{opt_item, vec_item};
ghost use Rattle.aud_parse.specs.Ties.Items.{private_item, hidden_item, protected_item, operation_body_item, boxed_declaration_item};
ghost use Rattle.aud_cursor.specs.Ties.Reads.{Reads, MayRead, Completes};

use crate::build::boxed;
use crate::build_protected::made_protected_body;
use crate::declaration::identifiers;
use crate::operation::{OPERATIONS, operation, operations};
use aud_cursor::behind::{both, ended};
use aud_cursor::cursor::{Read, Rest, accept, is_one_of, word};
use aud_cursor::leaf::{ident, opt_ident};
use aud_lex::token::{Kind, Token};
use aud_parse_expr::expression::opt_value;
use aud_syntax::tree::{
    Declaration, Ident, Operation, OperationBody, PrivateItem, ProtectedDeclaration,
};
use std::alloc::Global;

const PRIVATE_ITEMS: [Kind; 4] = [
    Kind::Entry,
    Kind::Procedure,
    Kind::Function,
    Kind::Identifier,
];

/// The name of a protected object, its operations, what stands behind `private`, if that is
/// written, and the name behind `end`.
type Parts = (
    ((Ident, Vec<Operation>), Option<Vec<PrivateItem>>),
    Option<Ident>,
);

/// Components of one subtype, and the value with which they begin, if there is one.
fn components(alloc: Global, start: Rest, room: u32) -> Read<PrivateItem>
    ensures { Reads private_item (N g.Components) room start.entry result }
{
    let (names, rest) = identifiers(alloc, start)?;
    let rest = word(rest, Kind::Colon)?;
    let (subtype, rest) = ident(alloc, rest)?;
    let (value, rest) = opt_value(alloc, rest, room, Kind::Becomes)?;
    let item = PrivateItem::Components(names, subtype, value);
    ended(item, rest, Kind::Semicolon)
}

/// An operation or components, behind `private` (RM 9.4(6)).
fn private_item(alloc: Global, start: Rest, room: u32) -> Read<PrivateItem>
    ensures { Reads private_item (N g.PrivateItem) room start.entry result }
{
    if is_one_of(start, &OPERATIONS) {
        let (operation, rest) = operation(alloc, start, room)?;
        return Ok((PrivateItem::Operation(operation), rest));
    }
    components(alloc, start, room)
}

/// All that stands behind `private`.
fn private_items(alloc: Global, start: Rest, room: u32) -> Read<Vec<PrivateItem>>
    ensures { MayRead (vec_item private_item) (Rep g.PrivateItem) room start.entry result }
{
    let mut all = Vec::new(alloc);
    let mut rest = start;
    'turns: while is_one_of(rest, &PRIVATE_ITEMS) {
        let (next, after) = private_item(alloc, rest, room)?;
        all.push(next)?;
        rest = after;
    }
    Ok((all, rest))
}

/// The same behind that word, if it is written.
fn opt_private(alloc: Global, start: Rest, room: u32) -> Read<Option<Vec<PrivateItem>>>
    ensures { MayRead (opt_item hidden_item) (Opt g.PrivatePart) room start.entry result }
{
    if let Some((_, behind)) = accept(start, Kind::Private) {
        let (items, rest) = private_items(alloc, behind, room)?;
        return Ok((Some(items), rest));
    }
    Ok((None, start))
}

/// What stands in the declaration of a protected object behind its first word.
fn parts(alloc: Global, start: Rest, room: u32) -> Read<Parts>
    ensures { Reads protected_item (N g.ProtectedDeclaration) room start.entry result }
{
    let (name, rest) = ident(alloc, start)?;
    let rest = word(rest, Kind::Is)?;
    let (parts, rest) = both(name, operations(alloc, rest, room))?;
    let (parts, rest) = both(parts, opt_private(alloc, rest, room))?;
    let (parts, rest) = ended(parts, rest, Kind::End)?;
    let (parts, rest) = both(parts, opt_ident(alloc, rest))?;
    ended(parts, rest, Kind::Semicolon)
}

/// A protected object, behind its first word (RM 9.4).
#[inline(never)]
pub fn protected_declaration<'a>(
    alloc: Global,
    begin: &Token,
    start: Rest<'a>,
    room: u32,
) -> Read<'a, Box<Declaration>>
    ensures { Completes (λ es. made g.Protected (token begin.now ∷ es))
        boxed_declaration_item (N g.ProtectedDeclaration ∷ []) room start.entry result }
{
    let ((((name, operations), private_items), end_name), rest) = parts(alloc, start, room)?;
    let object = ProtectedDeclaration {
        at: begin.at(),
        name,
        operations,
        private_items,
        end_name,
    };
    let boxed = boxed(alloc, Declaration::Protected(object))?;
    Ok((boxed, rest))
}

/// What ends the body of a protected object, and the body of all its parts.
#[inline(never)]
pub fn end_protected_body<'a>(
    alloc: Global,
    parts: (Ident, Vec<OperationBody>),
    begin: &Token,
    start: Rest<'a>,
) -> Read<'a, Box<Declaration>>
    ensures { (room : ℕ) → Completes
        (λ es. made g.Protected (token begin.now ∷ made g.ProtectedBody (an_ident parts.0
        ∷ vec_item operation_body_item parts.1 ∷ es)))
        boxed_declaration_item
        (T kind.End ∷ Opt g.Identifier ∷ T kind.Semicolon ∷ [])
        room start.entry result }
{
    let (parts, rest) = ended(parts, start, Kind::End)?;
    let (parts, rest) = both(parts, opt_ident(alloc, rest))?;
    let (((name, bodies), end_name), rest) = ended(parts, rest, Kind::Semicolon)?;
    let declaration = made_protected_body(alloc, begin.at(), name, bodies, end_name)?;
    Ok((declaration, rest))
}
