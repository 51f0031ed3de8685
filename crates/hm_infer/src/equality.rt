// Which declared types admit equality.
use crate::context::{Context, flags};
use crate::type_declaration::{DatatypeBinding, Declared};
use crate::written::place_of;
use hm_scheme::Stop;
use sml_syntax::{Text, Ty, TyForm};

impl Context {
    /// Whether a written type admits equality where its variables do, the datatypes of the declaration around it having it as they are
    /// chosen to. Marks the variables that have to admit it.
    #[cycle(written_equality)]
    pub(crate) fn admits(
        &mut self,
        t: &Ty,
        variables: &[Text],
        asked: &mut Vec<bool>,
        own: &[DatatypeBinding],
        chosen: &[bool],
    ) -> Result<bool, Stop> {
        match &t.form {
            TyForm::Var(name) => {
                if let Some(place) = place_of(name, variables) {
                    if let Some(flag) = asked.get_mut(place) {
                        *flag = true;
                    }
                }
                Ok(true)
            }
            TyForm::Con(name, arguments) => {
                match self.asks(name, arguments.as_slice().len(), own, chosen)? {
                    Some(asks) => {
                        self.admit(
                            arguments.as_slice(),
                            asks.as_slice(),
                            variables,
                            asked,
                            own,
                            chosen,
                        )
                    }
                    None => Ok(false),
                }
            }
            TyForm::Tuple(ts) => {
                let asks = flags(self.alloc, ts.as_slice().len(), true)?;
                self.admit(
                    ts.as_slice(),
                    asks.as_slice(),
                    variables,
                    asked,
                    own,
                    chosen,
                )
            }
            TyForm::Arrow(_, _) => Ok(false),
        }
    }

    // Whether those types of a list admit equality that are asked to.
    #[cycle(written_equality)]
    fn admit(
        &mut self,
        ts: &[Ty],
        asks: &[bool],
        variables: &[Text],
        asked: &mut Vec<bool>,
        own: &[DatatypeBinding],
        chosen: &[bool],
    ) -> Result<bool, Stop> {
        let mut all = true;
        for i in 0..ts.len() {
            if asks.get(i).copied().unwrap_or(true) {
                if !self.admits(&ts[i], variables, asked, own, chosen)? {
                    all = false;
                }
            }
        }
        Ok(all)
    }

    // Which arguments of a type name have to admit equality, none where its types never do.
    fn asks(
        &mut self,
        name: &Text,
        count: usize,
        own: &[DatatypeBinding],
        chosen: &[bool],
    ) -> Result<Option<Vec<bool>>, Stop> {
        if let Some(place) = own
            .iter()
            .position(|bind| bind.1.as_bytes() == name.as_bytes())
        {
            if chosen.get(place).copied().unwrap_or(false) {
                return Ok(Some(flags(self.alloc, count, true)?));
            }
            return Ok(None);
        }
        let alloc = self.alloc;
        match self.function(name.as_bytes())? {
            Some(function) => match &function.equality {
                Some(asks) => Ok(Some(Vec::from_slice(alloc, asks.as_slice())?)),
                None => Ok(None),
            },
            None => Err(Stop::Ill),
        }
    }

    /// The greatest choice of datatypes with equality.
    pub(crate) fn equal_datatypes(&mut self, own: &[DatatypeBinding]) -> Result<Vec<bool>, Stop> {
        let mut chosen = flags(self.alloc, own.len(), true)?;
        // Each round but the last takes equality from a datatype.
        for _ in 0..own.len() {
            let mut same = true;
            for i in 0..own.len() {
                if chosen.get(i).copied().unwrap_or(false)
                    && !self.all_admit(own[i].2.as_slice(), own, chosen.as_slice())?
                {
                    if let Some(flag) = chosen.get_mut(i) {
                        *flag = false;
                    }
                    same = false;
                }
            }
            if same {
                return Ok(chosen);
            }
        }
        Ok(chosen)
    }

    // Whether the arguments of all constructors admit equality.
    fn all_admit(
        &mut self,
        constructors: &[Declared],
        own: &[DatatypeBinding],
        chosen: &[bool],
    ) -> Result<bool, Stop> {
        let mut asked = Vec::new(self.alloc);
        for constructor in constructors {
            if let Some(t) = &constructor.1 {
                if !self.admits(t, &[], &mut asked, own, chosen)? {
                    return Ok(false);
                }
            }
        }
        Ok(true)
    }
}
