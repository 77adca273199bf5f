//! What lines have said.
ghost use Rattle.std.specs.Prelude.{◌≡◌, ◌≤◌, [], ◌++◌, ◌∷◌, length, Some, None, IfOk, OnOk, option_map, option_to_list};
ghost use Rattle.sws_script.specs.declared.line.Line.TheVariants as line;
ghost use Rattle.sws_link.specs.Limits.{conn_limit};
ghost use Rattle.sws_script.specs.Order.{grown, no_contents, conns_of, input_of, bare_conn, with_step, with_cut, with_item};

use crate::line::Line;
use crate::{Input, Item, ScriptConn, Sequence};
use std::alloc::{AllocError, Global};

/// The steps and connections of some lines.
#[derive(Drop)]
pub struct Contents {
    steps: Sequence<(u16, u32)>,
    /// The connections to which no line can be added.
    conns: Sequence<ScriptConn>,
    /// The last connection, if one has begun.
    open_conn: Option<ScriptConn>,
}

impl Contents {
    /// Nothing was said.
    pub fn new(alloc: Global) -> Contents
        ensures { result ≡ no_contents }
    {
        Contents {
            steps: Sequence::new(Vec::new(alloc)),
            conns: Sequence::new(Vec::new(alloc)),
            open_conn: None,
        }
    }

    /// How many connections have begun.
    pub fn conns(&self) -> usize
        requires { length (conns_of self.now) ≤ conn_limit }
        ensures { result ≡ length (conns_of self.now) }
    {
        match self.open_conn {
            None => self.conns.as_slice().len(),
            Some(_) => self.conns.as_slice().len() + 1,
        }
    }

    /// Adds what a line says.
    pub fn grow(&mut self, alloc: Global, says: Line) -> Result<(), AllocError>
        ensures { OnOk result (self.new ≡ grown self.old says) }
    {
        match says {
            Line::ScheduleHead => Ok(()),
            Line::Run { core, count } => self.steps.push((core, count)),
            Line::End => Ok(()),
            Line::ScriptHead => Ok(()),
            Line::Conn => self.begin_conn(alloc),
            Line::Step(count) => {
                self.set_step(count);
                Ok(())
            }
            Line::Cut(count) => {
                self.set_cut(count);
                Ok(())
            }
            Line::Item(item) => self.add_item(item),
        }
    }

    /// Begins a connection.
    fn begin_conn(&mut self, alloc: Global) -> Result<(), AllocError>
        ensures { OnOk result (self.new ≡ grown self.old line.Conn) }
    {
        if let Some(conn) = self.open_conn.take() {
            self.conns.push(conn)?;
        }
        self.open_conn = Some(ScriptConn {
            step: None,
            cut: None,
            items: Sequence::new(Vec::new(alloc)),
        });
        Ok(())
    }

    /// Sets the most bytes of a write.
    fn set_step(&mut self, count: u32)
        ensures { self.new ≡ grown self.old (line.Step count) }
    {
        if let Some(conn) = &mut self.open_conn {
            conn.step = Some(count);
        }
    }

    /// Sets the bytes after which writes fail.
    fn set_cut(&mut self, count: u64)
        ensures { self.new ≡ grown self.old (line.Cut count) }
    {
        if let Some(conn) = &mut self.open_conn {
            conn.cut = Some(count);
        }
    }

    /// Adds an item.
    fn add_item(&mut self, item: Item) -> Result<(), AllocError>
        ensures { OnOk result (self.new ≡ grown self.old (line.Item item)) }
    {
        match &mut self.open_conn {
            None => Ok(()),
            Some(conn) => conn.items.push(item),
        }
    }

    /// The input of the lines.
    pub fn into_input(self) -> Result<Input, AllocError>
        ensures { IfOk result (λ input. input ≡ input_of self) }
    {
        let Contents {
            steps,
            mut conns,
            open_conn,
        } = self;
        match open_conn {
            None => Ok(Input { steps, conns }),
            Some(conn) => {
                conns.push(conn)?;
                Ok(Input { steps, conns })
            }
        }
    }
}
