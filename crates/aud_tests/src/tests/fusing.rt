// What is done at once: from the beginning of each step of a program on, in the order of its code.

use crate::tests::loaded;
use aud_code::fused::Fused;
use aud_code::sound_code::SoundCode;
use aud_expr::operands::Operands;
use aud_gen::generate;
use aud_machine::machine::opened;
use aud_tasks::compiled::Compiled;
use aud_tasks::run::run;
use aud_text::limits::STANDARD;
use aud_typed::program::Program;
use std::alloc::{AllocError, Global};
use std::process::Abort;
use std::test::Fail;

const LOOPS: &[u8] =
    b"procedure M is X, Y : Integer := 0; P, Q : Boolean; A : array (0 .. 9) of Integer; begin while X < 9 loop X := X + 1; X := X - 1; Y := X * 2; X := X + Y; Y := Y - X; X := X * Y; exit when X = Y; P := X > Y and then P; if P then Y := (X + 1) * 2; else null; end if; X := 7; Y := X; X := X + A (Y); P := X > 5 and then Q; exit when P or else Q; P := True; Q := P; P := not Q; exit when not P; exit when X + Y * 2 > 9; Put (X'Image); end loop; end M;\n";

const STEPS_AT_ONCE: [&str; 31] = [
    // the declarations of X and Y, of P and Q, and of A
    "apart",
    "apart",
    "apart",
    // `while`, and the statements of its loop
    "test of a variable and a number",
    "sum of a variable and a number",
    "difference of a variable and a number",
    "other operator on a variable and a number",
    "sum of two variables",
    "difference of two variables",
    "other operator on two variables",
    "test of two variables",
    "target",
    "test of a truth value",
    "target and variable",
    "null",
    "assignment of a number",
    "assignment of a variable",
    "operator on a variable and an element",
    "target and passing unless a relation holds",
    "passing where a truth value stays",
    "assignment of a literal truth value",
    "assignment of a truth value",
    "assignment of a negation",
    "test of a negation",
    "two variables",
    // the text that is put
    "apart",
    // where handlers would be, and the end
    "apart",
    "apart",
    // a body for a number that none has: a null statement and its end
    "null",
    "apart",
    "apart",
];

const SHORT_CIRCUITS: &[u8] =
    b"procedure M is X : Integer := 0; P, Q : Boolean := False; begin P := X > 5 and then X mod 2 = 0; Q := P or else not Q; P := Q and then P; end M;\n";

// What ends those steps.
const ENDS: [&str; 3] = [
    "relation and end of an assignment",
    "negation of a variable and end of an assignment",
    "truth value of a variable and end of an assignment",
];

// Each has a word of its own.
fn word(fused: &Fused) -> &'static str {
    match *fused {
        Fused::Apart => "apart",
        Fused::Push(_) => "number",
        Fused::Load(_) => "variable",
        Fused::LoadBoth(_, _) => "two variables",
        Fused::OnOne(_) => "operator on one",
        Fused::OnTwo(_) => "operator on two",
        Fused::OnCell(_, _) => "operator on the newest and a variable",
        Fused::OnNumber(_, _) => "operator on the newest and a number",
        Fused::OnCells(_, _, _) => "operator on two variables",
        Fused::OnCellNumber(_, _, _) => "operator on a variable and a number",
        Fused::Check(_) => "check",
        Fused::Cell => "cell of a truth value",
        Fused::PushTruth(_) => "truth value",
        Fused::LoadTruth(_) => "truth value of a variable",
        Fused::Negate => "negation",
        Fused::Relate(_) => "relation",
        Fused::RelateCell(_, _) => "relation of the newest and a variable",
        Fused::RelateNumber(_, _) => "relation of the newest and a number",
        Fused::RelateCellNumber(_, _, _) => "relation of a variable and a number",
        Fused::Compare(_) => "relation of truth values",
        Fused::Combine(_) => "logical operator",
        Fused::PassIfFalse(_) => "passing if false",
        Fused::PassIfTrue(_) => "passing if true",
        Fused::PassUnless { .. } => "passing unless a relation holds",
        Fused::FindAndPassUnless { .. } => "target and passing unless a relation holds",
        Fused::PassIfCell { .. } => "passing where a truth value stays",
        Fused::Find(_, _) => "target",
        Fused::LoadElement(_) => "element",
        Fused::FindElement(_, _) => "element as a target",
        Fused::FindAndLoad { .. } => "target and variable",
        Fused::Null { .. } => "null",
        Fused::Around { .. } => "next value of a parameter",
        Fused::Assign { .. } => "end of an assignment",
        Fused::AssignChecked { .. } => "check and end of an assignment",
        Fused::AssignTwo { .. } => "operator and end of an assignment",
        Fused::AssignTruth { .. } => "end of an assignment of a truth value",
        Fused::AssignRelated { .. } => "relation and end of an assignment",
        Fused::AssignTruthOf { .. } => "truth value of a variable and end of an assignment",
        Fused::AssignNegationOf { .. } => "negation of a variable and end of an assignment",
        Fused::Test { .. } => "end of a test",
        Fused::TestNewest { .. } => "relation and end of a test",
        Fused::AssignSum { .. } => "sum of a variable and a number",
        Fused::AssignDifference { .. } => "difference of a variable and a number",
        Fused::AssignNumber { .. } => "other operator on a variable and a number",
        Fused::AssignSumOfCells { .. } => "sum of two variables",
        Fused::AssignDifferenceOfCells { .. } => "difference of two variables",
        Fused::AssignCells { .. } => "other operator on two variables",
        Fused::AssignElement { .. } => "operator on a variable and an element",
        Fused::SetInteger { .. } => "assignment of a number",
        Fused::CopyInteger { .. } => "assignment of a variable",
        Fused::SetTruth { .. } => "assignment of a literal truth value",
        Fused::CopyTruth { .. } => "assignment of a truth value",
        Fused::CopyNegated { .. } => "assignment of a negation",
        Fused::TestTruth { .. } => "test of a truth value",
        Fused::TestNegated { .. } => "test of a negation",
        Fused::TestNumber { .. } => "test of a variable and a number",
        Fused::TestCells { .. } => "test of two variables",
    }
}

fn begins_as_told(rt: &impl Abort, code: &SoundCode, wanted: &[&str]) {
    let mut count = 0usize;
    for place in 0..code.len() {
        if code.begins(place) {
            let expected = wanted.get(count).copied().unwrap_or("no step");
            let found = code.fused(place).map_or("nothing", word);
            assert!(rt; found == expected, "step {count}");
            count = count.saturating_add(1);
        }
    }
    assert!(rt; count == wanted.len());
}

fn stands_somewhere(code: &SoundCode, wanted: &str) -> bool {
    for place in 0..code.len() {
        if code.fused(place).map_or("nothing", word) == wanted {
            return true;
        }
    }
    false
}

// A program with loops, and how many steps of its code are fused. After the first steps, so many, `run_once` takes `once`
// of this task's, and then `run_fast` takes `at_once`.
struct Shape {
    what: &'static str,
    text: &'static [u8],
    fused: usize,
    before: u32,
    task: usize,
    once: u32,
    at_once: u32,
}

// The last of these steps is that of the null statement of a body for a number that none has.
const SHAPES: [Shape; 12] = [
    Shape {
        what: "a loop in main",
        text: b"procedure M is X : Integer := 0; begin while X < 9 loop X := X + 1; end loop; end M;\n",
        fused: 3,
        before: 1,
        task: 0,
        once: 1,
        at_once: 18,
    },
    Shape {
        what: "a loop in a task, and a null statement",
        text: b"procedure M is task T; task body T is X : Integer := 0; begin while X < 9 loop X := X + 1; end loop; end T; begin null; end M;\n",
        fused: 4,
        before: 4,
        task: 1,
        once: 1,
        at_once: 18,
    },
    Shape {
        what: "a loop in a procedure",
        text: b"procedure M is procedure P is X : Integer := 0; begin while X < 9 loop X := X + 1; end loop; end P; begin P; end M;\n",
        fused: 3,
        before: 2,
        task: 0,
        once: 1,
        at_once: 18,
    },
    Shape {
        what: "a loop in a procedure, over main's variable",
        text: b"procedure M is X : Integer := 0; procedure P is begin while X < 9 loop X := X + 1; end loop; end P; begin P; end M;\n",
        fused: 3,
        before: 2,
        task: 0,
        once: 1,
        at_once: 18,
    },
    Shape {
        what: "a loop in a block",
        text: b"procedure M is begin declare X : Integer := 0; begin while X < 9 loop X := X + 1; end loop; end; end M;\n",
        fused: 3,
        before: 2,
        task: 0,
        once: 1,
        at_once: 18,
    },
    Shape {
        what: "a sum of a parameter's values",
        text: b"procedure M is S : Integer := 0; begin for I in 1 .. 9 loop S := I - S; end loop; end M;\n",
        fused: 3,
        before: 2,
        task: 0,
        once: 1,
        at_once: 16,
    },
    Shape {
        what: "a sum over an array",
        text: b"procedure M is S : Integer := 0; A : array (0 .. 9) of Integer; begin for I in 0 .. 9 loop S := S + A (I); end loop; end M;\n",
        fused: 3,
        before: 3,
        task: 0,
        once: 1,
        at_once: 18,
    },
    Shape {
        what: "loops in one another, over an array",
        text: b"procedure M is S : Integer := 0; A : array (0 .. 9) of Integer; begin for J in 1 .. 3 loop for I in reverse 0 .. 9 loop A (I) := A (9 - I) + J; S := S + A (I); end loop; end loop; end M;\n",
        fused: 5,
        before: 4,
        task: 0,
        once: 0,
        at_once: 29,
    },
    Shape {
        what: "short circuits",
        text: b"procedure M is X : Integer := 0; P, Q : Boolean := False; begin while X < 9 loop X := X + 1; P := X > 5 and then X mod 2 = 0; if P or else Q then Q := not P; end if; end loop; end M;\n",
        fused: 6,
        before: 3,
        task: 0,
        once: 1,
        at_once: 38,
    },
    Shape {
        what: "short circuits that end in a variable, and in a negation",
        text: b"procedure M is X : Integer := 0; P : Boolean := True; Q : Boolean := False; begin while X < 9 loop X := X + 1; P := Q or else P; Q := P and then not Q; end loop; end M;\n",
        fused: 5,
        before: 3,
        task: 0,
        once: 1,
        at_once: 36,
    },
    Shape {
        what: "a loop in a procedure with a variable, in a main procedure with more of them",
        text: b"procedure M is A, B, C : Integer := 0; procedure P is S : Integer := 0; begin for I in 1 .. 9 loop S := S + I; A := S; end loop; end P; begin P; end M;\n",
        fused: 4,
        before: 6,
        task: 0,
        once: 1,
        at_once: 25,
    },
    Shape {
        what: "steps of one value",
        text: b"procedure M is X, Y : Integer := 0; P, Q : Boolean := True; begin while X < 9 loop X := X + 1; Y := 7; Y := X; P := True; Q := P; Q := not P; if P then null; end if; exit when P = Q; exit when Q; exit when not P; exit when X + Y * 2 > 99; end loop; end M;\n",
        fused: 14,
        before: 4,
        task: 0,
        once: 1,
        at_once: 117,
    },
];

fn fused_steps(code: &SoundCode) -> usize {
    let mut count = 0usize;
    for place in 0..code.len() {
        let is_apart = matches!(code.fused(place), None | Some(Fused::Apart));
        if code.begins(place) && !is_apart {
            count = count.saturating_add(1);
        }
    }
    count
}

#[test]
fn fuses_whole_steps(rt: HostRuntime) -> Result<(), Fail> {
    let program = loaded(rt.alloc(), LOOPS)?;
    let code = generate(rt.alloc(), &program)?;
    begins_as_told(&rt, &code, &STEPS_AT_ONCE);
    Ok(())
}

#[test]
fn fuses_ends_of_steps(rt: HostRuntime) -> Result<(), Fail> {
    let program = loaded(rt.alloc(), SHORT_CIRCUITS)?;
    let code = generate(rt.alloc(), &program)?;
    for wanted in &ENDS {
        assert!(rt; stands_somewhere(&code, wanted), "{wanted}");
    }
    Ok(())
}

#[test]
fn fuses_steps_of_every_shape(rt: HostRuntime) -> Result<(), Fail> {
    for shape in &SHAPES {
        let program = loaded(rt.alloc(), shape.text)?;
        let code = generate(rt.alloc(), &program)?;
        assert!(rt; fused_steps(&code) == shape.fused, "{}", shape.what);
    }
    Ok(())
}

fn does_at_once(
    rt: &impl Abort,
    alloc: Global,
    program: &Program,
    code: &SoundCode,
    shape: &Shape,
) -> Result<(), AllocError> {
    let mut state = opened(alloc, code, program, STANDARD)?;
    let compiled = Compiled {
        code,
        program,
        limits: STANDARD,
    };
    let mut operands = Operands::new(alloc);
    assert!(rt; state.steps() <= 1_000 && shape.before <= 1_000);
    let _ = run(&mut state, alloc, compiled, &mut operands, shape.before)?;
    assert!(rt; state.steps() <= 1_000 && shape.task < state.len());
    let single = state.run_once(code, shape.task);
    assert!(rt; single.steps == shape.once, "{}", shape.what);
    assert!(rt; state.steps() <= 1_000 && shape.task < state.len());
    let taken = state.run_fast(code, shape.task, 1_000);
    assert!(rt; taken.steps == shape.at_once, "{}", shape.what);
    Ok(())
}

#[test]
fn does_steps_of_every_shape_at_once(rt: HostRuntime) -> Result<(), Fail> {
    for shape in &SHAPES {
        let program = loaded(rt.alloc(), shape.text)?;
        let code = generate(rt.alloc(), &program)?;
        does_at_once(&rt, rt.alloc(), program.program(), &code, shape)?;
    }
    Ok(())
}
