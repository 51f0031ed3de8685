// Caches by the calls on them.
use case_lines::Words;
use data_words::{read_cache_call, read_text, show_cache_answer};
use sml_syntax::NoMemory;
use std::alloc::Global;
use web_cache::{CacheGroup, Caches, call_fits, group_of};
use web_data::CacheCall;

/// All caches, and one group of caches beside them.
#[derive(Drop)]
pub(crate) struct Standing {
    caches: Caches,
    group: CacheGroup,
}

impl Standing {
    /// No caches. The group beside them has a number.
    pub(crate) fn make(alloc: Global, group: &str) -> Result<Standing, NoMemory> {
        Ok(Standing {
            caches: Caches::make(alloc)?,
            group: CacheGroup::make(alloc, group.parse().unwrap_or(0))?,
        })
    }

    /// `call MOMENT CALL`: the answer, and the last moment of the call's group; `group_call MOMENT CALL`: the same of the
    /// group beside them.
    pub(crate) fn answer(
        &mut self,
        alloc: Global,
        word: &str,
        words: &mut Words,
        out: &mut String,
    ) -> Result<(), NoMemory> {
        let moment = words.number();
        let call = read_cache_call(alloc, words)?;
        if !call_fits(&call) {
            out.push_str("unfit")?;
            return Ok(());
        }
        if word == "group_call" {
            return self.act_on_group(moment, &call, out);
        }
        let group = group_of(&call.id.name);
        if moment < self.caches.last(group) {
            out.push_str("early")?;
            return Ok(());
        }
        show_cache_answer(out, &self.caches.act(moment, &call)?)?;
        write!(out, " at {}", self.caches.last(group))?;
        Ok(())
    }

    fn act_on_group(
        &mut self,
        moment: u64,
        call: &CacheCall,
        out: &mut String,
    ) -> Result<(), NoMemory> {
        if !call_fits(call) || moment < self.group.last() {
            out.push_str("early")?;
            return Ok(());
        }
        show_cache_answer(out, &self.group.act(moment, call)?)?;
        write!(out, " at {}", self.group.last())?;
        Ok(())
    }

    /// `last GROUP`: the last moment of a group.
    pub(crate) fn last(&self, group: &str, out: &mut String) -> Result<(), NoMemory> {
        let group: u8 = group.parse().unwrap_or(0);
        if group < 16 {
            write!(out, "{}", self.caches.last(group))?;
        }
        Ok(())
    }
}

/// `group 'NAME`: the number of the group of the caches with this name.
pub(crate) fn show_group(alloc: Global, word: &str, out: &mut String) -> Result<(), NoMemory> {
    let group = group_of(&read_text(alloc, word)?);
    write!(out, "{group}")?;
    Ok(())
}
