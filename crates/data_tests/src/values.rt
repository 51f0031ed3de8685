// A value of each form.
use crate::copied::{Copied, are_copied, boxed, list, text};
use sml_evaluation::{Bound, Closure, Value};
use sml_syntax::{Constructor, Exp, ExpForm, Listed, NoMemory, Pat, PatForm, Rule, Span};
use std::alloc::Global;
use std::process::Abort;
use web_data::{CacheId, Desc, Kind};

const SPAN: Span = Span { from: 3, to: 8 };

fn cache(rt: &(impl Abort + AllocGlobal)) -> CacheId {
    CacheId {
        name: text(rt, "squares"),
        key: Desc::Int,
        value: Desc::Str,
        kind: Kind {
            used: true,
            time: Some(60),
            size: None,
        },
    }
}

/// `_ => 1`
fn rules(rt: &(impl Abort + AllocGlobal)) -> Listed<Rule> {
    let pat = Pat {
        span: SPAN,
        form: PatForm::Any,
    };
    let body = Exp {
        span: SPAN,
        form: ExpForm::Int(1),
    };
    list(rt, [Rule { pat, body }])
}

fn closure(rt: &(impl Abort + AllocGlobal)) -> Closure {
    let x = (text(rt, "x"), Bound::Variable(Value::Int(1)));
    let y = (
        text(rt, "y"),
        Bound::Constructor(Constructor::Data(1, 0), true),
    );
    Closure {
        rules: rules(rt),
        env: list(rt, [x, y]),
        group: list(rt, [(text(rt, "f"), rules(rt))]),
    }
}

pub(crate) fn are_closures_copied(rt: &(impl Abort + AllocGlobal)) {
    are_copied(rt, &[closure(rt)]);
    let bounds = [
        Bound::Variable(Value::Int(1)),
        Bound::Constructor(Constructor::Data(1, 0), true),
        Bound::Constructor(Constructor::Data(1, 1), false),
        Bound::Constructor(Constructor::Exn(1), true),
    ];
    are_copied(rt, &bounds);
}

pub(crate) fn are_values_copied(rt: &(impl Abort + AllocGlobal)) {
    let values = [
        Value::Int(-1),
        Value::Char(97),
        Value::Str(text(rt, "a")),
        Value::Unit,
        Value::Tuple(list(rt, [Value::Int(1), Value::Int(2)])),
        Value::Con(1, 0),
        Value::Applied(1, 1, boxed(rt, Value::Int(1))),
        Value::Exn(0, None),
        Value::Exn(0, Some(boxed(rt, Value::Int(1)))),
        Value::Maker(Constructor::Ref),
        Value::Ref(1),
        Value::Fun(closure(rt)),
        Value::Prim(text(rt, "+"), list(rt, [Value::Int(1)])),
        Value::Desc(Desc::Str),
        Value::Cache(cache(rt)),
    ];
    are_copied(rt, &values);
}

impl Copied for Bound {
    fn copied(&self, alloc: Global) -> Result<Bound, NoMemory> {
        self.try_copy(alloc)
    }
}

impl Copied for Closure {
    fn copied(&self, alloc: Global) -> Result<Closure, NoMemory> {
        self.try_copy(alloc)
    }
}

impl Copied for Value {
    fn copied(&self, alloc: Global) -> Result<Value, NoMemory> {
        self.try_copy(alloc)
    }
}
