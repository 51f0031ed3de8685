// Inference: the context, and the classes of the nodes so far.
ghost use Rattle.std.specs.Prelude.{◌≡◌, length, suc, [], IfOk, OnOk};
ghost use Rattle.hm_infer.specs.Numbering.{Numbered, a_dec};

use crate::context::Context;
use hm_scheme::Stop;
use sml_syntax::{Dec, DecForm, NoMemory};
use std::alloc::Global;

/// The classes of the nodes of a program, each before its parts, and the context behind them.
#[derive(Drop)]
pub(crate) struct Inference {
    pub(crate) context: Context,
    pub(crate) nodes: Vec<u32>,
    /// For each node the number behind its last part, once it is known.
    pub(crate) ends: Vec<u32>,
}

impl Inference {
    /// Before the first item of a program whose widest tuple has so many parts.
    pub(crate) fn start(alloc: Global, widest: u32) -> Result<Inference, Stop>
        ensures { IfOk result (λ start. start.nodes.items ≡ []) }
    {
        Ok(Inference {
            context: Context::start(alloc, widest)?,
            nodes: Vec::new(alloc),
            ends: Vec::new(alloc),
        })
    }

    /// Begins a node, and answers its place.
    pub(crate) fn open(&mut self) -> Result<usize, NoMemory>
        ensures { OnOk result (length self.new.nodes.items ≡ suc (length self.old.nodes.items)) }
    {
        let place = self.nodes.len();
        self.nodes.push(0)?;
        self.ends.push(0)?;
        Ok(place)
    }

    /// Ends the node of that place.
    pub(crate) fn close(&mut self, place: usize, class: u32)
        ensures { length self.new.nodes.items ≡ length self.old.nodes.items }
    {
        if let Some(node) = self.nodes.get_mut(place) {
            *node = class;
        }
        if let Some(end) = self.ends.get_mut(place) {
            *end = self.nodes.len().min(4_294_967_295) as u32;
        }
    }

    /// An item: declarations of types and exceptions stand at the top alone.
    pub(crate) fn item(&mut self, d: &Dec) -> Result<(), Stop>
        ensures { OnOk result (Numbered (a_dec d.now) (length self.old.nodes.items) (length self.new.nodes.items)) }
    {
        match &d.form {
            DecForm::Abbrev(binds) => self.context.abbreviations(binds.as_slice()),
            DecForm::DataDef(binds) => self.context.datatypes(binds.as_slice()),
            DecForm::ExnDef(binds) => self.context.exceptions(binds.as_slice()),
            _ => self.dec(d),
        }
    }
}
