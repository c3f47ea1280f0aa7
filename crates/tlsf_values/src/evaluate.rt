//! The value of an expression, form by form: numbers, truths, names, calls, and what stands for its one part.

ghost use Rattle.std.specs.Prelude.{◌≡◌, OnOk, length, map, []};
ghost use Rattle.ltl_formula.specs.Nodes.{Grows};
ghost use Rattle.tlsf_values.specs.Names.{look_up};
ghost use Rattle.tlsf_values.specs.NamesSeen.{range_seen};
ghost use Rattle.tlsf_values.specs.NamesSeen.{names_seen};
ghost use Rattle.tlsf_values.specs.Results.{IsOutcome};
ghost use Rattle.tlsf_values.specs.ScopeSeen.{code_body_seen, meaning_seen};
ghost use Rattle.tlsf_syntax.specs.Seen.{alternative_seen, expr_seen, trees_seen, word_seen};
ghost use Rattle.tlsf_values.specs.Values.{arguments_at, bit_value, call_value, chosen_value, evaluator, form_value, guard_value, index_value, meaning_value};

use crate::names::Names;
use crate::number_set::NumberSet;
use crate::patterns::BusRange;
use crate::scope::{BodyOf, Meaning, Scope};
use crate::value::Value;
use crate::work::Work;
use spec_faults::{SpecCode, SpecFault, fault};
use tlsf_syntax::{Alternative, Expr, Form, Word};

impl<'t> Names<'t> {
    /// The value of an expression, where so many nodes and calls may still be entered.
    #[cycle(evaluation)]
    pub(crate) fn value(
        &self,
        bound: &mut Scope<'t>,
        expr: &'t Expr,
        left: u32,
        work: &mut Work,
    ) -> Result<Value, SpecFault>
        ensures value { IsOutcome result work.new ((evaluator (names_seen self.now) left).value bound.old (expr_seen expr.now) work.old) }
        ensures bound { OnOk result (bound.new ≡ bound.old) }
        ensures grows { Grows work.old.formulas work.new.formulas }
    {
        if left == 0 {
            return Err(fault(SpecCode::TooDeep, expr.span.start));
        }
        work.count(expr.span.start, 1)?;
        self.form(bound, expr, left - 1, work)
    }

    /// The value of a node, which was entered and counted.
    #[cycle(evaluation)]
    #[tactic(auto, using(crate::proofs::SeenLemmas::start_seen))]
    fn form(
        &self,
        bound: &mut Scope<'t>,
        expr: &'t Expr,
        left: u32,
        work: &mut Work,
    ) -> Result<Value, SpecFault>
        ensures value { IsOutcome result work.new (form_value (names_seen self.now) (evaluator (names_seen self.now) left) bound.old (expr_seen expr.now) work.old) }
        ensures bound { OnOk result (bound.new ≡ bound.old) }
        ensures grows { Grows work.old.formulas work.new.formulas }
    {
        let place = expr.span.start;
        match &expr.form {
            Form::Number(Some(number)) => Ok(Value::Number(*number)),
            Form::Number(None) => Err(fault(SpecCode::NumberRange, place)),
            Form::Truth(truth) => Ok(Value::Truth(*truth)),
            Form::Named(name) => {
                let meaning = self.look_up(bound, name)?;
                self.meaning_value(place, meaning, left, work)
            }
            Form::Call { word, arguments } => self.call(bound, place, word, arguments, left, work),
            Form::Index { word, index } => self.index(bound, place, word, index, left, work),
            Form::SizeOf(part) => {
                let value = self.value(bound, part, left, work)?;
                let bus = value.bus(part.span.start)?;
                Ok(Value::Number(i64::from(self.bus(bus).width)))
            }
            Form::Paren(part) => self.value(bound, part, left, work),
            Form::Set(parts) => {
                let numbers = self.part_numbers(bound, parts, left, work)?;
                Ok(Value::Set(NumberSet::made(self.alloc, numbers)?))
            }
            Form::Steps {
                first,
                second,
                last,
            } => self.steps(bound, place, first, second, last, left, work),
            Form::Chain { first, rest } => self.chain(bound, place, first, rest, left, work),
            Form::Pair {
                op,
                left: first,
                right,
            } => self.pair(bound, place, *op, first, right, left, work),
            Form::Prefix { op, part } => {
                let value = self.value(bound, part, left, work)?;
                work.prefixed(*op, place, part.span.start, &value)
            }
            Form::Count { count, part } => self.counted(bound, place, count, part, left, work),
            Form::Window { op, from, to, part } => self.windowed(
                bound, place, *op, from, to, part, left, work,
            ),
            Form::Big { op, ranges, part } => self.big(bound, place, *op, ranges, part, left, work),
        }
    }

    /// A name by itself, in the node at this byte.
    #[cycle(evaluation)]
    fn meaning_value(
        &self,
        place: u64,
        meaning: Meaning<'t>,
        left: u32,
        work: &mut Work,
    ) -> Result<Value, SpecFault>
        ensures value { IsOutcome result work.new (meaning_value (evaluator (names_seen self.now) left) place (meaning_seen meaning.entry) work.old) }
        ensures grows { Grows work.old.formulas work.new.formulas }
    {
        match meaning {
            Meaning::Known(value) => Ok(value),
            Meaning::Signal(signal) => Ok(Value::Flat(work.signal_made(place, signal as usize)?)),
            Meaning::Definition([], body) => {
                let mut inner = Scope::new(self.alloc);
                self.body(&mut inner, place, body, left, work)
            }
            Meaning::Definition(..) => Err(fault(SpecCode::WrongSort, place)),
            Meaning::Enumeration => Err(fault(SpecCode::WrongSort, place)),
            Meaning::Undeclared => Err(fault(SpecCode::UnknownName, place)),
        }
    }

    /// The body of a definition with its arguments bound, for the node at this byte.
    #[cycle(evaluation)]
    fn body(
        &self,
        bound: &mut Scope<'t>,
        place: u64,
        body: BodyOf<'t>,
        left: u32,
        work: &mut Work,
    ) -> Result<Value, SpecFault>
        ensures value { IsOutcome result work.new ((evaluator (names_seen self.now) left).body bound.old place (code_body_seen body.entry) work.old) }
        ensures grows { Grows work.old.formulas work.new.formulas }
    {
        if left == 0 {
            return Err(fault(SpecCode::TooDeep, place));
        }
        match body {
            BodyOf::Plain(value) => self.value(bound, value, left - 1, work),
            BodyOf::Guarded(alternatives) => self.chosen(
                bound,
                place,
                alternatives,
                left - 1,
                work,
            ),
        }
    }

    /// The value of the first alternative whose guard is true.
    #[cycle(evaluation)]
    fn chosen(
        &self,
        bound: &mut Scope<'t>,
        place: u64,
        alternatives: &'t [Alternative],
        left: u32,
        work: &mut Work,
    ) -> Result<Value, SpecFault>
        ensures value { IsOutcome result work.new (chosen_value (evaluator (names_seen self.now) left) bound.old place (map alternative_seen alternatives.now) work.old) }
        ensures grows { Grows work.old.formulas work.new.formulas }
    {
        for alternative in alternatives {
            if self.guard(bound, alternative, left, work)? {
                return self.value(bound, &alternative.value, left, work);
            }
        }
        Err(fault(SpecCode::NoGuard, place))
    }

    /// A guard is a truth, and `otherwise` is true.
    #[cycle(evaluation)]
    #[tactic(auto, using(crate::proofs::SeenLemmas::start_seen))]
    fn guard(
        &self,
        bound: &mut Scope<'t>,
        alternative: &'t Alternative,
        left: u32,
        work: &mut Work,
    ) -> Result<bool, SpecFault>
        ensures value { IsOutcome result work.new (guard_value (evaluator (names_seen self.now) left) bound.old (alternative_seen alternative.now).guard work.old) }
        ensures bound { OnOk result (bound.new ≡ bound.old) }
        ensures grows { Grows work.old.formulas work.new.formulas }
    {
        match &alternative.guard {
            None => Ok(true),
            Some(guard) => {
                let value = self.value(bound, guard, left, work)?;
                value.truth(guard.span.start)
            }
        }
    }

    /// A call of a definition, in the node at this byte.
    #[cycle(evaluation)]
    #[tactic(auto, using(crate::proofs::SeenLemmas::count_seen))]
    fn call(
        &self,
        bound: &mut Scope<'t>,
        place: u64,
        word: &'t Word,
        arguments: &'t [Expr],
        left: u32,
        work: &mut Work,
    ) -> Result<Value, SpecFault>
        ensures value { IsOutcome result work.new (call_value (evaluator (names_seen self.now) left) bound.old place word.now.span.start (look_up (names_seen self.now) bound.old word.now.name) (trees_seen arguments.now) work.old) }
        ensures bound { OnOk result (bound.new ≡ bound.old) }
        ensures grows { Grows work.old.formulas work.new.formulas }
    {
        match self.look_up(bound, &word.name)? {
            Meaning::Definition(words, body) => {
                if arguments.len() != words.len() {
                    return Err(fault(SpecCode::WrongSort, place));
                }
                let mut inner = self.arguments(bound, words, arguments, left, work)?;
                self.body(&mut inner, place, body, left, work)
            }
            Meaning::Undeclared => Err(fault(SpecCode::UnknownName, word.span.start)),
            _ => Err(fault(SpecCode::WrongSort, place)),
        }
    }

    /// The arguments of a call from left to right, each bound to its word.
    #[cycle(evaluation)]
    fn arguments(
        &self,
        bound: &mut Scope<'t>,
        words: &'t [Word],
        arguments: &'t [Expr],
        left: u32,
        work: &mut Work,
    ) -> Result<Scope<'t>, SpecFault>
        requires length { length arguments.now ≡ length words.now }
        ensures value { IsOutcome result work.new (arguments_at (evaluator (names_seen self.now) left) bound.old [] (map word_seen words.now) (trees_seen arguments.now) work.old) }
        ensures bound { OnOk result (bound.new ≡ bound.old) }
        ensures grows { Grows work.old.formulas work.new.formulas }
    {
        let mut inner = Scope::new(self.alloc);
        for i in 0..words.len() {
            let value = self.value(bound, &arguments[i], left, work)?;
            inner.push(&words[i].name, value)?;
        }
        Ok(inner)
    }

    /// A bit of a bus, in the node at this byte.
    #[cycle(evaluation)]
    #[tactic(auto, using(crate::proofs::SeenLemmas::start_seen))]
    fn index(
        &self,
        bound: &mut Scope<'t>,
        place: u64,
        word: &'t Word,
        index: &'t Expr,
        left: u32,
        work: &mut Work,
    ) -> Result<Value, SpecFault>
        ensures value { IsOutcome result work.new (index_value (names_seen self.now) (evaluator (names_seen self.now) left) bound.old place (word_seen word.now) (expr_seen index.now) work.old) }
        ensures bound { OnOk result (bound.new ≡ bound.old) }
        ensures grows { Grows work.old.formulas work.new.formulas }
    {
        let meaning = self.look_up(bound, &word.name)?;
        if meaning.is_never_a_bus() {
            self.value(bound, index, left, work)?;
            return Err(fault(SpecCode::WrongSort, word.span.start));
        }
        let bus = self.meaning_value(word.span.start, meaning, left, work)?;
        let value = self.value(bound, index, left, work)?;
        let bus = bus.bus(word.span.start)?;
        let number = value.number(index.span.start)?;
        work.bit(place, index.span.start, self.bus(bus), number)
    }
}

impl Work {
    /// The bit of a bus with this number, which stands at the second byte.
    fn bit(&mut self, place: u64, at: u64, bus: BusRange, number: i64) -> Result<Value, SpecFault>
        ensures grows { Grows self.old.formulas self.new.formulas }
        ensures value { IsOutcome result self.new (bit_value place at (range_seen bus) number self.old) }
    {
        if number < 0 || number >= i64::from(bus.width) {
            return Err(fault(SpecCode::IndexOut, at));
        }
        let signal = bus.first as usize + number as usize;
        Ok(Value::Flat(self.signal_made(place, signal)?))
    }
}
