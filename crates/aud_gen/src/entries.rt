// The steps of entry calls and accepts.

ghost use Rattle.std.specs.Prelude.{◌≡◌, ◌∷◌, [], length, IfOk, None};
ghost use Rattle.aud_typed.specs.declared.program.AcceptStatement.{out-AcceptStatement};
ghost use Rattle.aud_typed.specs.declared.program.EntryCallStatement.{out-EntryCallStatement};
ghost use Rattle.aud_typed.specs.Tree.{part_of};
ghost use Rattle.aud_typed.specs.Ties.View.{alternatives_in, doing_in, entry_call_in, plain_callee, plain_form, plain_statements};
ghost use Rattle.aud_meaning.specs.Statements.{has_else, region_of};
ghost use Rattle.aud_code.specs.View.{behind_offers, beside, bodies_in, bodies_offered, plain_among, plain_kind, way_beside};
ghost use Rattle.aud_layout.specs.Instructions.{call_end, delays_code, form_kind, guards_code, instructions_of};
ghost use Rattle.aud_layout.specs.Layout.{bodies_from_by, doing_place, part_place, parts_from_by, ways_count};
ghost use Rattle.aud_layout.specs.Leading.{around};
ghost use Rattle.aud_layout.specs.Written.{flat_step};
ghost use Rattle.aud_gen.specs.Writes.{accept_step, alone, call_lines, call_step, choice_code, select_lines, select_step, IsOffer, Instructs, Writes, WritesInside};

use crate::lengths::{
    alternative_length, call_length, choice_length, delay_length, doing_length, place_behind,
};
use crate::writer::Writer;
use aud_code::instruction::Instruction;
use aud_code::line::{Among, CallKind, Offer};
use aud_layout::ways::Ways;
use aud_meaning::state::OpenAccept;
use aud_typed::program::{
    AcceptStatement, Alternative, CallForm, Callee, Doing, EntryCallStatement, SelectStatement,
    Statement,
};
use std::alloc::{AllocError, Global};

impl Writer {
    /// The step of an entry call. Behind it stand the statements that follow the call, and those where the call is
    /// left; then comes the step `next`.
    pub fn write_call_step(
        &mut self,
        call: &EntryCallStatement,
        ways: &Ways,
        out: usize,
        next: usize,
    )
        ensures { WritesInside self.old self.new (around out ways.now) (λ place a.
            call_step call.now place next a) }
    {
        let step = call_length(call).saturating_add(1);
        let inside = self.behind(self.place(), step);
        let second = self.behind_list(inside, &call.after, ways);
        let then = part_place(&call.after, inside, next);
        let otherwise = part_place(&call.otherwise, second, next);
        self.write_call(call, then, otherwise, out, ways.within);
    }

    // That step, which leads to the place `next` behind the call, and to the place `otherwise` where the call is left.
    fn write_call(
        &mut self,
        call: &EntryCallStatement,
        next: usize,
        otherwise: usize,
        out: usize,
        within: Option<usize>,
    )
        ensures { Writes self.old self.new
            (call_lines call.now next otherwise out within) }
    {
        self.write_call_code(call);
        self.concern(call_of(call, otherwise), next, call.at, out, within);
    }

    // Whose entry is called, the arguments, and the time that the call waits.
    fn write_call_code(&mut self, call: &EntryCallStatement)
        ensures { Instructs self.old self.new (instructions_of (entry_call_in call.now)) }
    {
        self.write_callee(&call.callee);
        self.write_called(&call.arguments, &call.form);
    }

    /// The step of an accept. Behind it stands what the accept does, and then comes the step `next`.
    pub fn write_accept(
        &mut self,
        accept: &AcceptStatement,
        next: usize,
        out: usize,
        within: Option<usize>,
    )
        ensures { Writes self.old self.new
            (accept_step accept.now (length self.old.lines) next out within) }
    {
        let inside = self.behind(self.place(), 1);
        let body = doing_place(&accept.doing, inside, next);
        let among = Among::Accept {
            entry: accept.entry,
            region: region_of(&accept.doing),
            body,
        };
        self.concern(among, next, accept.at, out, within);
    }

    /// The step of a selective accept. Behind it stands what lies in its alternatives, then the statements behind its
    /// `else`; at last comes the step `next`.
    pub fn write_choice_step(
        &mut self,
        select: &SelectStatement,
        ways: &Ways,
        out: usize,
        next: usize,
    )
        ensures { WritesInside self.old self.new (around out ways.now) (λ place a.
            select_step select.now place next a) }
    {
        let own = self.place();
        let step = choice_length(&select.alternatives).saturating_add(1);
        let inside = self.behind(own, step);
        let otherwise = self.behind_offered(inside, select, ways, next);
        match offers_within(self.alloc(), &select.alternatives, inside, next, ways) {
            Ok(offers) => self.write_choice(select, own, otherwise, offers, out, ways.within),
            Err(_) => self.refuse(),
        }
    }

    // That step, which begins at the place `own`, and leads to the place `otherwise` where no alternative is open, or
    // else by one of these.
    fn write_choice(
        &mut self,
        select: &SelectStatement,
        own: usize,
        otherwise: usize,
        offers: Vec<Offer>,
        out: usize,
        within: Option<usize>,
    )
        ensures { Writes self.old self.new (select_lines select.now own otherwise
            (behind_offers offers.items) (bodies_offered offers.items) out within) }
    {
        self.write_choice_code(&select.alternatives);
        let among = Among::Select {
            has_else: has_else(&select.otherwise),
            own,
            offers,
        };
        self.concern(among, otherwise, select.at, out, within);
    }

    // The guards of alternatives, the mark, and the delays of those that are open.
    fn write_choice_code(&mut self, alternatives: &[Alternative])
        ensures { Instructs self.old self.new (choice_code (alternatives_in alternatives.now)) }
    {
        self.write_openings(alternatives);
        self.instruct(Instruction::Mark);
        self.write_times(alternatives);
    }

    fn write_openings(&mut self, alternatives: &[Alternative])
        ensures { Instructs self.old self.new (guards_code 1 (alternatives_in alternatives.now)) }
    {
        for number in 0..alternatives.len() {
            self.write_opening(number + 1, &alternatives[number]);
        }
    }

    // The guard of the alternative of this number.
    fn write_opening(&mut self, number: usize, alternative: &Alternative)
        ensures { Instructs self.old self.new (guards_code number (alone alternative.now)) }
    {
        match alternative {
            Alternative::Accept { guard, accept, .. } => {
                self.write_boolean(guard);
                self.instruct(Instruction::OpensAccept(open_accept(number, accept)))
            }
            Alternative::Delay { guard, .. } => {
                self.write_boolean(guard);
                self.instruct(Instruction::OpensDelay(number))
            }
            Alternative::Terminate { guard } => {
                self.write_boolean(guard);
                self.instruct(Instruction::OpensTerminate)
            }
        }
    }

    fn write_times(&mut self, alternatives: &[Alternative])
        ensures { Instructs self.old self.new (delays_code 1 (alternatives_in alternatives.now)) }
    {
        for number in 0..alternatives.len() {
            self.write_time(number + 1, &alternatives[number]);
        }
    }

    // The delay of the alternative of this number, if it has one.
    fn write_time(&mut self, number: usize, alternative: &Alternative)
        ensures { Instructs self.old self.new (delays_code number (alone alternative.now)) }
    {
        match alternative {
            Alternative::Accept { .. } => {}
            Alternative::Delay { delay, .. } => {
                let passed = self.behind(delay_length(delay), 1);
                self.instruct(Instruction::PassUnlessNext(number, passed));
                self.write_delay(delay);
                self.instruct(Instruction::SetTime(number))
            }
            Alternative::Terminate { .. } => {}
        }
    }
}

// The accept of the alternative of this number.
fn open_accept(number: usize, accept: &AcceptStatement) -> OpenAccept
    ensures { (let a = out-AcceptStatement accept.now in result ≡ record {
      alternative = number;
      entry = a.entry;
      at = a.at;
      region = region_of (doing_in a.doing);
    }) }
{
    OpenAccept {
        alternative: number,
        entry: accept.entry,
        at: accept.at,
        region: region_of(&accept.doing),
    }
}

// The table of the formals of an entry, where its accept does something.
fn region_of(doing: &Option<Doing>) -> Option<usize>
    ensures { result ≡ region_of (doing_in doing.now) }
{
    match doing {
        Some(doing) => Some(doing.region),
        None => None,
    }
}

fn has_else(ss: &[Statement]) -> bool
    ensures { result ≡ has_else (part_of (plain_statements ss.now)) }
{
    !ss.is_empty()
}

// How the step of an entry call ends, which leads to the place `otherwise` where the call is left.
fn call_of(call: &EntryCallStatement, otherwise: usize) -> Among
    ensures ending { (let c = out-EntryCallStatement call.now in
        plain_among result ≡ call_end (plain_callee c.callee) c.entry (plain_form c.form)) }
    ensures ways { beside result ≡ otherwise ∷ [] }
    ensures bodies { bodies_in result ≡ [] }
    ensures exit { way_beside result ≡ None }
{
    let entry = call.entry;
    let kind = kind_of(&call.form);
    match &call.callee {
        Callee::Task(_) => Among::Call {
            entry,
            kind,
            otherwise,
        },
        Callee::Object(object) => Among::CallObject {
            object: *object,
            entry,
            kind,
            otherwise,
        },
    }
}

fn kind_of(form: &CallForm) -> CallKind
    ensures { plain_kind result ≡ form_kind (plain_form form.now) }
{
    match form {
        CallForm::Plain => CallKind::Plain,
        CallForm::Conditional => CallKind::Conditional,
        CallForm::Timed(_) => CallKind::Timed,
    }
}

// Where a selective accept leads by these alternatives, in which lies what stands from a place on; behind all of them
// comes the step `next`, and this number of ways leads out.
fn offers(
    alloc: Global,
    alternatives: &[Alternative],
    place: usize,
    next: usize,
    ways: usize,
) -> Result<Vec<Offer>, AllocError>
    ensures { IfOk result (λ offers. (behind_offers offers.items
        ≡ parts_from_by flat_step (alternatives_in alternatives.now) place next ways)
        × (bodies_offered offers.items
        ≡ bodies_from_by flat_step (alternatives_in alternatives.now) place next ways)) }
{
    let mut offers = Vec::new(alloc);
    let mut first = place;
    for alternative in alternatives {
        offers.push(offer(alternative, first, next)?)?;
        first = place_behind(first, alternative_length(alternative, ways))?;
    }
    Ok(offers)
}

// The same where these ways lead out.
fn offers_within(
    alloc: Global,
    alternatives: &[Alternative],
    place: usize,
    next: usize,
    ways: &Ways,
) -> Result<Vec<Offer>, AllocError>
    ensures { IfOk result (λ offers. (behind_offers offers.items ≡ parts_from_by flat_step
        (alternatives_in alternatives.now) place next (ways_count (around 0 ways.now)))
        × (bodies_offered offers.items ≡ bodies_from_by flat_step
        (alternatives_in alternatives.now) place next (ways_count (around 0 ways.now)))) }
{
    offers(alloc, alternatives, place, next, ways.count()?)
}

// Where an alternative leads.
fn offer(alternative: &Alternative, place: usize, next: usize) -> Result<Offer, AllocError>
    ensures { IfOk result (λ offer. IsOffer offer alternative.now place next) }
{
    match alternative {
        Alternative::Accept { accept, after, .. } => {
            let second = place_behind(place, doing_length(&accept.doing))?;
            let behind = part_place(after, second, next);
            let body = doing_place(&accept.doing, place, behind);
            Ok(Offer { behind, body })
        }
        Alternative::Delay { after, .. } => {
            let behind = part_place(after, place, next);
            Ok(Offer {
                behind,
                body: behind,
            })
        }
        Alternative::Terminate { .. } => Ok(Offer {
            behind: next,
            body: next,
        }),
    }
}

/// Where statements begin that stand at a place, and else the step `next`.
pub fn part_place(ss: &[Statement], place: usize, next: usize) -> usize
    ensures { result ≡ part_place (part_of (plain_statements ss.now)) place next }
{
    if ss.is_empty() { next } else { place }
}

/// Where what an accept does begins, which stands at a place, and else the step `next`.
pub fn doing_place(doing: &Option<Doing>, place: usize, next: usize) -> usize
    ensures { result ≡ doing_place (doing_in doing.now) place next }
{
    match doing {
        Some(_) => place,
        None => next,
    }
}
