// Rules, tried one after the other.
use crate::compiler::Compiler;
use crate::pattern::{Failing, Matched};
use code_parts::{Location, MATCH, Seen, clause_arguments, sum};
use kam_code::Instr;
use region_syntax::{RExp, RExpForm, RPat, RPatForm, RRule};
use sml_syntax::NoMemory;

/// What rules are tried on: a value, or the arguments of a function of several patterns, which no tuple
/// holds.
#[derive(Drop)]
pub(crate) enum Subject {
    Value(Location),
    Arguments(Vec<Location>),
}

/// What happens where no rule fits: `Match` is raised, or the packet on the stack is raised again.
#[derive(Clone, Copy)]
pub(crate) enum Otherwise {
    RaiseMatch,
    RaisePacket(u64),
}

/// Where rules stand: the words in the frame, whether in a tail position, and how many words go with what
/// the rules push.
#[derive(Clone, Copy)]
pub(crate) struct Standing {
    pub(crate) depth: u64,
    pub(crate) tail: bool,
    pub(crate) drop: u64,
}

impl Compiler {
    /// The rules of a match.
    #[cycle(terms)]
    pub(crate) fn rules(
        &mut self,
        rules: &[RRule],
        subject: &Subject,
        standing: Standing,
        otherwise: Otherwise,
    ) -> Result<(), NoMemory> {
        let mut ends = Vec::new(self.alloc);
        for rule in rules {
            let outer = self.scope.depth();
            let mut matched = Matched::new(self.alloc);
            let depth = self.subject_pattern(&rule.pat, subject, standing.depth, &mut matched)?;
            self.bind_matched(&matched)?;
            self.exp(&rule.body, depth, standing.tail)?;
            self.scope.leave(outer);
            if !standing.tail {
                ends.push(self.end_rule(standing, depth)?)?;
            }
            self.failing(matched.failing.as_slice(), standing.depth, depth)?;
        }
        self.otherwise(otherwise)?;
        self.writer.land_all(ends.as_slice())
    }

    /// `case`
    #[cycle(terms)]
    pub(crate) fn case(&mut self, e: &RExp, depth: u64, tail: bool) -> Result<(), NoMemory> {
        let RExpForm::Case(subject, rules) = &e.form else {
            return Ok(());
        };
        let (subject, rules) = (subject.get(), rules.as_slice());
        if let Some(arguments) = clause_arguments(subject, rules) {
            let standing = Standing {
                depth,
                tail,
                drop: 0,
            };
            let subject = Subject::Arguments(self.argument_locations(arguments)?);
            return self.rules(rules, &subject, standing, Otherwise::RaiseMatch);
        }
        self.exp(subject, depth, false)?;
        let standing = Standing {
            depth: sum(depth, 1)?,
            tail,
            drop: 1,
        };
        let subject = Subject::Value(Location::Frame(depth));
        self.rules(rules, &subject, standing, Otherwise::RaiseMatch)
    }

    /// `handle`
    #[cycle(terms)]
    pub(crate) fn handle(&mut self, e: &RExp, depth: u64, tail: bool) -> Result<(), NoMemory> {
        let RExpForm::Handle(body, rules) = &e.form else {
            return Ok(());
        };
        let handler = self.writer.jump(Instr::Handler(0))?;
        self.exp(body.get(), depth, false)?;
        self.writer.emit(Instr::HandlerEnd)?;
        let behind = match tail {
            true => Instr::Return,
            false => Instr::Jump(0),
        };
        let end = self.writer.jump(behind)?;
        self.writer.land(handler)?;
        let standing = Standing {
            depth: sum(depth, 1)?,
            tail,
            drop: 1,
        };
        let subject = Subject::Value(Location::Frame(depth));
        self.rules(
            rules.as_slice(),
            &subject,
            standing,
            Otherwise::RaisePacket(depth),
        )?;
        self.writer.land(end)
    }

    // The pattern of a rule.
    fn subject_pattern(
        &mut self,
        pat: &RPat,
        subject: &Subject,
        depth: u64,
        matched: &mut Matched,
    ) -> Result<u64, NoMemory> {
        match subject {
            Subject::Value(location) => self.pattern(pat, Seen::at(*location), depth, matched),
            Subject::Arguments(locations) => match &pat.form {
                RPatForm::Tuple(parts) => {
                    self.argument_patterns(parts.as_slice(), locations.as_slice(), depth, matched)
                }
                _ => Ok(depth),
            },
        }
    }

    fn argument_patterns(
        &mut self,
        parts: &[RPat],
        locations: &[Location],
        depth: u64,
        matched: &mut Matched,
    ) -> Result<u64, NoMemory> {
        let mut depth = depth;
        for (part, location) in parts.iter().zip(locations) {
            depth = self.pattern(part, Seen::at(*location), depth, matched)?;
        }
        Ok(depth)
    }

    fn argument_locations(&mut self, arguments: &[RExp]) -> Result<Vec<Location>, NoMemory> {
        let mut locations = Vec::new(self.alloc);
        for argument in arguments {
            if let RExpForm::Name(name) = &argument.form {
                locations.push(self.entry(name)?.location)?;
            }
        }
        Ok(locations)
    }

    // The end of a rule that isn't in a tail position: a jump behind all of them.
    fn end_rule(&mut self, standing: Standing, depth: u64) -> Result<usize, NoMemory> {
        let pushed = depth.saturating_sub(standing.depth);
        self.writer.slide(sum(standing.drop, pushed)?)?;
        self.writer.jump(Instr::Jump(0))
    }

    // Where a pattern doesn't fit, what it pushed is popped, a word at a time.
    fn failing(&mut self, failing: &[Failing], outer: u64, inner: u64) -> Result<(), NoMemory> {
        let mut depth = match failing.last() {
            Some(deepest) => deepest.depth.min(inner),
            None => outer,
        };
        for fail in failing.iter().rev() {
            for _ in fail.depth..depth {
                self.writer.emit(Instr::Pop(1))?;
            }
            depth = depth.min(fail.depth);
            self.writer.land(fail.jump)?;
        }
        for _ in outer..depth {
            self.writer.emit(Instr::Pop(1))?;
        }
        Ok(())
    }

    fn otherwise(&mut self, otherwise: Otherwise) -> Result<(), NoMemory> {
        match otherwise {
            Otherwise::RaiseMatch => self.writer.emit(Instr::Jump(MATCH)),
            Otherwise::RaisePacket(depth) => {
                self.writer.emit(Instr::Local(depth))?;
                self.writer.emit(Instr::Raise)
            }
        }
    }
}
