// The lists that belong to a network: a number or a mark for each arc or node, and the steps of a walk.
ghost use Rattle.std.specs.Prelude.{◌≡◌, ℤ, Bool, List};
ghost use Rattle.theory.specs.declared.network.Step.{Step as NetworkStep};

use std::marker::Model;
use theory::Step;

/// A flow for each arc, or a potential for each node.
#[derive(Drop)]
pub struct Flows {
    items: Vec<i64>,
}

impl Model for Flows {
    ghost Value = { List ℤ };

    ghost view = { λ flows. flows.items.items };
}

impl Flows {
    pub fn of_vec(items: Vec<i64>) -> Self
        ensures { result ≡ items.items }
    {
        Flows { items }
    }

    pub fn as_slice(&self) -> &[i64]
        ensures { result.now ≡ self.now }
    {
        self.items.as_slice()
    }

    pub fn into_vec(self) -> Vec<i64>
        ensures { result.items ≡ self }
    {
        let Flows { items } = self;
        items
    }
}

/// A mark for each node: a set of nodes.
#[derive(Drop)]
pub struct Marks {
    items: Vec<bool>,
}

impl Model for Marks {
    ghost Value = { List Bool };

    ghost view = { λ marks. marks.items.items };
}

impl Marks {
    pub fn of_vec(items: Vec<bool>) -> Self
        ensures { result ≡ items.items }
    {
        Marks { items }
    }

    pub fn as_slice(&self) -> &[bool]
        ensures { result.now ≡ self.now }
    {
        self.items.as_slice()
    }

    pub fn into_vec(self) -> Vec<bool>
        ensures { result.items ≡ self }
    {
        let Marks { items } = self;
        items
    }
}

/// The steps of a walk, in order.
#[derive(Drop)]
pub struct Walk {
    items: Vec<Step>,
}

impl Model for Walk {
    ghost Value = { List NetworkStep };

    ghost view = { λ walk. walk.items.items };
}

impl Walk {
    pub fn of_vec(items: Vec<Step>) -> Self
        ensures { result ≡ items.items }
    {
        Walk { items }
    }

    pub fn as_slice(&self) -> &[Step]
        ensures { result.now ≡ self.now }
    {
        self.items.as_slice()
    }

    pub fn into_vec(self) -> Vec<Step>
        ensures { result.items ≡ self }
    {
        let Walk { items } = self;
        items
    }
}
