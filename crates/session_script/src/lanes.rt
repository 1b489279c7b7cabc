ghost use Rattle.std.specs.Prelude.{◌≡◌, [], ◌∷◌, ◌++◌, length, replicate, IfOk, OnOk, OnErr};
ghost use Rattle.session_rules.specs.declared.line.Line.TheVariants.{Work};

use session_rules::Line;
use std::alloc::{AllocError, Global};
use std::marker::Model;

/// The lines of a lane, in their order.
#[derive(Drop)]
pub struct Lane {
    lines: Vec<Line>,
}

impl Model for Lane {
    ghost use Rattle.std.specs.Prelude.{List};
    ghost use Rattle.session_rules.specs.declared.line.Line.{Line};

    ghost Value = { List Line };

    ghost view = { λ a. a.lines.items };
}

impl Lane {
    /// The empty lane, which takes no memory.
    pub fn new(alloc: Global) -> Lane
        ensures { result ≡ [] }
    {
        Lane {
            lines: Vec::new(alloc),
        }
    }

    /// The lane of a worker: so many times `Line::Work`.
    pub(crate) fn of_work(alloc: Global, jobs: usize) -> Result<Lane, AllocError>
        ensures { IfOk result (λ lane. lane ≡ replicate jobs Work) }
    {
        Ok(Lane {
            lines: vec![in alloc; Line::Work; jobs]?,
        })
    }

    /// Puts a line behind the others.
    pub fn push(&mut self, line: Line) -> Result<(), AllocError>
        ensures ok { OnOk result (self.new ≡ self.old ++ line ∷ []) }
        ensures err { OnErr result (self.new ≡ self.old) }
    {
        self.lines.push(line)?;
        Ok(())
    }

    /// All lines.
    pub fn as_slice(&self) -> &[Line]
        ensures { result.now ≡ self.now }
    {
        self.lines.as_slice()
    }
}

/// The lanes of a script in its order, those of the workers behind the written ones.
#[derive(Drop)]
pub struct Lanes {
    items: Vec<Lane>,
}

impl Model for Lanes {
    ghost use Rattle.std.specs.Prelude.{List};
    ghost use Rattle.session_rules.specs.declared.line.Line.{Line};

    ghost Value = { List (List Line) };

    ghost view = { λ a. a.items.items };
}

impl Lanes {
    /// The empty list, which takes no memory.
    pub fn new(alloc: Global) -> Lanes
        ensures { result ≡ [] }
    {
        Lanes {
            items: Vec::new(alloc),
        }
    }

    /// Puts a lane behind the others; where memory is wanting it is dropped.
    pub fn push(&mut self, lane: Lane) -> Result<(), AllocError>
        ensures ok { OnOk result (self.new ≡ self.old ++ lane ∷ []) }
        ensures err { OnErr result (self.new ≡ self.old) }
    {
        self.items.push(lane)?;
        Ok(())
    }

    /// The number of lanes.
    pub fn len(&self) -> usize
        ensures { result ≡ length self.now }
    {
        self.items.len()
    }

    /// All lanes.
    pub fn as_slice(&self) -> &[Lane]
        ensures { result.now ≡ self.now }
    {
        self.items.as_slice()
    }
}
