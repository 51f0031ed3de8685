// Functions, and groups of them.
use crate::compiler::Compiler;
use crate::rules::{Otherwise, Standing, Subject};
use code_parts::{Captures, Entry, Location, sum};
use kam_code::Instr;
use region_syntax::{FixDef, Place, RRule};
use sml_syntax::{NoMemory, Text};

/// A function of a group: its number, that of the function that calls it for an instance, what its closure
/// captures, its name, the regions that it is passed, and where its closure lies.
#[derive(Drop)]
pub(crate) struct Member {
    function: u32,
    wrapper: u32,
    name: u32,
    captured: Captures,
    passed: Vec<u32>,
    at: Place,
}

impl Compiler {
    /// The code of a function on its argument.
    #[cycle(terms)]
    fn function(
        &mut self,
        function: u32,
        rules: &[RRule],
        captured: &Captures,
        passed: &[u32],
        own: Option<u32>,
    ) -> Result<(), NoMemory> {
        let outer_scope = self.scope.depth();
        let outer_code = self.writer.begin_function(function);
        let depth = self.enter(captured, passed, own)?;
        let standing = Standing {
            depth,
            tail: true,
            drop: 0,
        };
        let subject = Subject::Value(Location::Frame(0));
        self.rules(rules, &subject, standing, Otherwise::RaiseMatch)?;
        self.writer.end_function(function, outer_code)?;
        self.scope.leave(outer_scope);
        Ok(())
    }

    /// `fn`
    #[cycle(terms)]
    pub(crate) fn function_value(&mut self, rules: &[RRule], at: Place) -> Result<(), NoMemory> {
        let captured = self.captures(rules, None)?;
        let function = self.writer.new_function()?;
        self.function(function, rules, &captured, &[], None)?;
        self.closure(function, &captured, at, None)
    }

    /// The functions of a group, whose closures are pushed; one that isn't made when it is captured is
    /// filled in. The answer is the number of words in the frame behind them.
    #[cycle(terms)]
    pub(crate) fn group(&mut self, group: &[FixDef], depth: u64) -> Result<u64, NoMemory> {
        let members = self.members(group, depth)?;
        let mut index = 0;
        for def in group {
            if let Some(member) = members.as_slice().get(index) {
                self.function(
                    member.function,
                    def.rules.as_slice(),
                    &member.captured,
                    member.passed.as_slice(),
                    Some(member.name),
                )?;
                self.wrapper(member)?;
            }
            index = usize::saturating_add(index, 1);
        }
        self.closures(members.as_slice(), depth)?;
        self.fill(members.as_slice(), depth)?;
        sum(depth, members.len() as u64)
    }

    // The names of a group stand for the words that come next.
    fn members(&mut self, group: &[FixDef], depth: u64) -> Result<Vec<Member>, NoMemory> {
        let mut members = Vec::new(self.alloc);
        let mut place = depth;
        for def in group {
            let member = self.member(def)?;
            let entry = Entry {
                location: Location::Frame(place),
                wrapper: member.wrapper,
            };
            self.scope.bind(member.name, entry)?;
            members.push(member)?;
            place = sum(place, 1)?;
        }
        Ok(members)
    }

    fn member(&mut self, def: &FixDef) -> Result<Member, NoMemory> {
        let captured = self.captures(def.rules.as_slice(), Some(def))?;
        let name = self.uses.number(&def.name)?;
        let function = self.writer.new_function()?;
        Ok(Member {
            function,
            wrapper: self.writer.new_function()?,
            name,
            captured,
            passed: self.passed_regions(name, def.regions.as_slice())?,
            at: def.at,
        })
    }

    fn passed_regions(&mut self, name: u32, regions: &[u32]) -> Result<Vec<u32>, NoMemory> {
        let mut passed = Vec::new(self.alloc);
        let mut index = 0;
        for region in regions {
            if self.uses.is_passed(name, index) {
                passed.push(*region)?;
            }
            index = u32::saturating_add(index, 1);
        }
        Ok(passed)
    }

    // What the closure of a function captures: the names free in it other than its own, and of the regions
    // that its code uses those that are in scope at run time and that it isn't passed.
    fn captures(&mut self, rules: &[RRule], def: Option<&FixDef>) -> Result<Captures, NoMemory> {
        let met = match def {
            Some(def) => self.uses.captured(rules, Some(&def.name))?,
            None => self.uses.captured(rules, None)?,
        };
        let mut regions = Vec::new(self.alloc);
        for region in &met.regions {
            if self.scope.has_region(*region) && !binds(def, *region) {
                regions.push(*region)?;
            }
        }
        Ok(Captures {
            names: met.names,
            regions,
        })
    }

    // The scope of a function's code. The answer is the number of words in its frame.
    fn enter(
        &mut self,
        captured: &Captures,
        passed: &[u32],
        own: Option<u32>,
    ) -> Result<u64, NoMemory> {
        let mut field = 1;
        for name in &captured.names {
            self.scope.move_to(*name, Location::Closure(field))?;
            field = sum(field, 1)?;
        }
        for region in &captured.regions {
            self.scope.bind_region(*region, Location::Closure(field))?;
            field = sum(field, 1)?;
        }
        if let Some(own) = own {
            self.scope.move_to(own, Location::Running)?;
        }
        let mut depth = 1;
        for region in passed {
            self.scope.bind_region(*region, Location::Frame(depth))?;
            depth = sum(depth, 1)?;
        }
        Ok(depth)
    }

    // The closure of a function. A name whose word lies in the frame from `unmade` on isn't made yet, and
    // 0 stands for it.
    fn closure(
        &mut self,
        function: u32,
        captured: &Captures,
        at: Place,
        unmade: Option<u64>,
    ) -> Result<(), NoMemory> {
        self.writer.function_address(function)?;
        let mut words = 1;
        for name in &captured.names {
            match place_of_unmade(self.scope.location(*name), unmade) {
                Some(_) => self.writer.emit(Instr::Const(0))?,
                None => self.writer.load(self.scope.location(*name))?,
            }
            words = sum(words, 1)?;
        }
        for region in &captured.regions {
            self.region(Some(*region))?;
            words = sum(words, 1)?;
        }
        self.place(at)?;
        self.writer.emit(Instr::Alloc(words))
    }

    fn closures(&mut self, members: &[Member], depth: u64) -> Result<(), NoMemory> {
        let mut unmade = depth;
        for member in members {
            self.closure(member.function, &member.captured, member.at, Some(unmade))?;
            unmade = sum(unmade, 1)?;
        }
        Ok(())
    }

    // Fills in what wasn't made yet.
    fn fill(&mut self, members: &[Member], depth: u64) -> Result<(), NoMemory> {
        let mut place = depth;
        for member in members {
            let mut field = 1;
            for name in &member.captured.names {
                if let Some(made) = place_of_unmade(self.scope.location(*name), Some(place)) {
                    self.writer.emit(Instr::Local(place))?;
                    self.writer.emit(Instr::Local(made))?;
                    self.writer.emit(Instr::SetField(field))?;
                }
                field = sum(field, 1)?;
            }
            place = sum(place, 1)?;
        }
        Ok(())
    }

    // What an instance that is stored calls: the function, on the argument and the places that the
    // instance's closure holds behind that of the function.
    fn wrapper(&mut self, member: &Member) -> Result<(), NoMemory> {
        let places = member.passed.len() as u64;
        if places == 0 {
            return Ok(());
        }
        let outer = self.writer.begin_function(member.wrapper);
        self.writer.emit(Instr::Env(1))?;
        self.writer.emit(Instr::Local(0))?;
        for place in 0..places {
            self.writer.emit(Instr::Env(sum(place, 2)?))?;
        }
        self.writer.emit(Instr::Call(sum(places, 1)?))?;
        self.writer.emit(Instr::Return)?;
        self.writer.end_function(member.wrapper, outer)
    }

    /// A use of a name of a group that isn't applied: the closure of the function itself where no places
    /// are passed, else one that holds that closure and the places.
    pub(crate) fn instance(
        &mut self,
        name: &Text,
        places: &[Place],
        region: Option<u32>,
    ) -> Result<(), NoMemory> {
        let entry = self.entry(name)?;
        if self.count_passed(name, places)? == 0 {
            return self.writer.load(entry.location);
        }
        self.writer.function_address(entry.wrapper)?;
        self.writer.load(entry.location)?;
        let passed = self.passed(name, places)?;
        self.region(region)?;
        self.writer.emit(Instr::Alloc(sum(passed, 2)?))
    }

    fn count_passed(&mut self, name: &Text, places: &[Place]) -> Result<usize, NoMemory> {
        let number = self.uses.number(name)?;
        let mut count: usize = 0;
        let mut index = 0;
        for _ in places {
            if self.uses.is_passed(number, index) {
                count = count.saturating_add(1);
            }
            index = u32::saturating_add(index, 1);
        }
        Ok(count)
    }
}

fn binds(def: Option<&FixDef>, region: u32) -> bool {
    match def {
        Some(def) => def.regions.as_slice().contains(&region),
        None => false,
    }
}

// The place in the frame of a word that isn't made yet.
fn place_of_unmade(location: Location, unmade: Option<u64>) -> Option<u64> {
    match (location, unmade) {
        (Location::Frame(place), Some(first)) if place >= first => Some(place),
        _ => None,
    }
}
