// The bodies of operations and of protected objects, of the parts that were read.
//
// None of these functions is inlined, as in `crate::build`.

ghost use Rattle.std.specs.Prelude.{◌≡◌, IfOk, map};
ghost use Rattle.aud_syntax.specs.Plain as m;
ghost use Rattle.aud_syntax.specs.Ties.View.{plain_body, plain_declaration, plain_declarations, plain_formal, plain_operation_body, made_operation_body, operation_body_list};

use crate::build::boxed;
use crate::operation_head::OperationHead;
use aud_syntax::tree::{Body, Declaration, Ident, OperationBody, ProtectedBody};
use aud_text::place::Pos;
use std::alloc::{AllocError, Global};

/// The body of an operation (RM 9.4(8)).
#[inline(never)]
pub fn made_operation_body(
    alloc: Global,
    head: Box<OperationHead>,
    declarations: Vec<Declaration>,
    inner: Box<Body>,
) -> Result<Box<OperationBody>, AllocError>
    ensures { IfOk result (λ b. plain_operation_body b.value ≡
        made_operation_body head.value.kind head.value.at head.value.name
        (map plain_formal head.value.formals.items) (plain_declarations declarations.items)
        (plain_body inner.value)) }
{
    let OperationHead {
        kind,
        at,
        name,
        formals,
    } = Box::into_inner(head);
    let body = Box::into_inner(inner);
    boxed(
        alloc,
        OperationBody {
            kind,
            at,
            name,
            formals,
            declarations,
            body,
        },
    )
}

/// The body of a protected object (RM 9.4(7)).
#[inline(never)]
pub fn made_protected_body(
    alloc: Global,
    at: Pos,
    name: Ident,
    bodies: Vec<OperationBody>,
    end_name: Option<Ident>,
) -> Result<Box<Declaration>, AllocError>
    ensures { IfOk result (λ b. plain_declaration b.value ≡
        m.protected_body at name (operation_body_list bodies.items) end_name) }
{
    let object = boxed(
        alloc,
        ProtectedBody {
            at,
            name,
            bodies,
            end_name,
        },
    )?;
    boxed(alloc, Declaration::ProtectedBody(object))
}
