// Delays.

ghost use Rattle.std.specs.Prelude.{◌≡◌, codes, OnOk};
ghost use Rattle.aud_syntax.specs.Ties.View.{plain_expression, plain_delay};
ghost use Rattle.aud_typed.specs.Ties.View.{plain_delay as plain_typed_delay, plain_statement as plain_typed_statement, milliseconds_in};
ghost use Rattle.aud_typed.specs.Tree.{milliseconds, delay as delay_at_place};
ghost use Rattle.aud_fault.specs.Least.{noted};
ghost use Rattle.aud_names.specs.Names.{visible};
ghost use Rattle.aud_check_bodies.specs.Delays.{real_faults, seconds_of, thousandths_of, milliseconds_of, seconds_faults, typed_seconds, duration_faults, delay_at, delay_faults, typed_delay};
ghost use Rattle.aud_typing.specs.Ties.Typing.{in_box, Leaves};

use crate::declaration::integer_of;
use aud_fault::fault::Least;
use aud_names::behind::{Left, Made, boxed};
use aud_names::names::Scope;
use aud_names::resolution::note_no_value;
use aud_names::rules::{Base, number_too_large, too_many_decimals};
use aud_syntax::tree::{Delay, Expression, Real};
use aud_text::int32::Int32;
use aud_text::name::Name;
use aud_text::place::Pos;
use aud_typed::program::{DelayExpression, Duration, Statement};
use aud_typing::expression::{expression, expression_at};
use aud_typing::typed::wants;

// Notes the faults of a real number (RM 2.4).
#[tactic(auto, using(aud_typing::proofs::Notes::noted_append))]
fn check_real(real: Real, faults: &mut Least)
    ensures { faults.new ≡ noted faults.old (real_faults real) }
{
    if real.whole.is_none() {
        number_too_large(real.at, faults);
    }
    if real.thousandths.is_none() {
        too_many_decimals(real.at, faults);
    }
}

fn seconds_of(whole: Option<Int32>) -> u32
    ensures { result ≡ seconds_of whole }
{
    match whole {
        None => 0,
        Some(value) => value.get().unsigned_abs(),
    }
}

fn thousandths_of(thousandths: Option<u16>) -> u16
    ensures { result ≡ thousandths_of thousandths }
{
    match thousandths {
        None => 0,
        Some(value) => value,
    }
}

fn duration(real: Real) -> Duration
    ensures { milliseconds_in result ≡ milliseconds_of real }
{
    Duration {
        seconds: seconds_of(real.whole),
        thousandths: thousandths_of(real.thousandths),
    }
}

// Notes where a declaration hides the type Duration (RM 8.3(15)).
fn check_duration(at: Pos, scope: &Scope<'_>, faults: &mut Least) -> Made<()>
    ensures { OnOk result (faults.new ≡ noted faults.old
        (duration_faults (visible (codes "DURATION") scope.now) at)) }
{
    let name = Name::from_source(scope.alloc(), b"DURATION")?;
    let meaning = scope.visible(&name);
    drop(name);
    if let Some(meaning) = meaning {
        note_no_value(meaning, at, faults);
    }
    Ok(())
}

// Duration of an expression, which is a whole number of seconds.
#[tactic(auto, using(aud_typing::proofs::Notes::noted_append))]
fn seconds(e: &Expression, scope: &Scope<'_>, faults: &mut Least) -> Left<DelayExpression>
    ensures { Leaves (in_box plain_typed_delay) result faults.old faults.new
        (seconds_faults (plain_expression e.now) scope.now)
        (typed_seconds (plain_expression e.now) scope.now) }
{
    let typed = expression(e, scope, faults)?;
    wants(Base::Whole, expression_at(e), &typed, faults);
    let seconds = integer_of(Box::into_inner(typed));
    boxed(scope.alloc(), DelayExpression::Seconds(seconds))
}

/// Checks how long is waited (RM 9.6): notes its faults, and answers what is left of it.
#[tactic(auto, using(aud_typing::proofs::Notes::noted_append))]
#[inline(never)]
pub fn delay(delay: &Delay, scope: &Scope<'_>, faults: &mut Least) -> Left<DelayExpression>
    ensures { Leaves (in_box plain_typed_delay) result faults.old faults.new
        (delay_faults (plain_delay delay.now) scope.now)
        (typed_delay (plain_delay delay.now) scope.now) }
{
    match delay {
        Delay::Seconds(_, real) => {
            check_real(*real, faults);
            boxed(scope.alloc(), DelayExpression::Fixed(duration(*real)))
        }
        Delay::Duration(_, named, e) => {
            check_duration(*named, scope, faults)?;
            seconds(e, scope, faults)
        }
    }
}

fn delay_at(delay: &Delay) -> Pos
    ensures { result ≡ delay_at (plain_delay delay.now) }
{
    match delay {
        Delay::Seconds(at, _) => *at,
        Delay::Duration(at, _, _) => *at,
    }
}

/// Checks a delay statement (RM 9.6).
#[inline(never)]
pub fn delay_statement(source: &Delay, scope: &Scope<'_>, faults: &mut Least) -> Left<Statement>
    ensures { Leaves (in_box plain_typed_statement) result faults.old faults.new
        (delay_faults (plain_delay source.now) scope.now)
        (delay_at_place (delay_at (plain_delay source.now))
        (typed_delay (plain_delay source.now) scope.now)) }
{
    let waited = delay(source, scope, faults)?;
    let statement = Statement::Delay(delay_at(source), Box::into_inner(waited));
    boxed(scope.alloc(), statement)
}
