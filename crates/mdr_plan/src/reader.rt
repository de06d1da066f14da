// What was read of a plan.

ghost use Rattle.std.specs.Prelude.{◌≡◌, ◌<◌, length, vec_len, IfOk, OnOk};
ghost use Rattle.mdr_plan.specs.Steps.{first_type, start, after, with_key, Steps};
ghost use Rattle.mdr_plan.specs.Lines.{IsNext};
ghost use Rattle.mdr_plan.specs.declared.line.Line.TheVariants as line_is;

use crate::line::{Line, Stage};
use crate::lines::line_of;
use crate::unread::Unread;
use mdr_core::{Half, Items, Key, Kind, Name, Plan, Ty};
use std::alloc::{AllocError, Global};
use std::mem;

/// What was read of a plan so far. The plan has one item for each function in each of its lists.
#[derive(Drop)]
pub struct Reader {
    pub stage: Stage,
    /// The names of the structs.
    pub structs: Items<Name>,
    /// The text of the last pointer type, if there is one.
    pub last: Name,
    pub plan: Plan,
    /// The least number that a `down` line may still have.
    pub low: usize,
    /// How many functions were passed by `up` lines.
    pub ups: usize,
    /// The last key of the function whose `up` line was read last.
    pub last_key: Option<Key>,
}

/// A type that each table begins with.
#[tactic(auto, unfolding(crate::specs::Steps::first_type))]
fn first_type(k: usize) -> Ty
    ensures { result ≡ first_type k }
{
    if k == 0 {
        Ty::Int(Kind::U8)
    } else if k == 1 {
        Ty::Int(Kind::U16)
    } else if k == 2 {
        Ty::Int(Kind::U32)
    } else if k == 3 {
        Ty::Int(Kind::U64)
    } else if k == 4 {
        Ty::Int(Kind::S8)
    } else if k == 5 {
        Ty::Int(Kind::S16)
    } else if k == 6 {
        Ty::Int(Kind::S32)
    } else if k == 7 {
        Ty::Int(Kind::S64)
    } else {
        Ty::Lock
    }
}

/// Adds a key to a list.
#[tactic(auto, using(crate::proofs::Keyed::with_key_inside))]
fn push_at(lists: &mut Vec<Items<Key>>, i: usize, key: Key) -> Result<(), AllocError>
    requires { i < vec_len lists.old }
    ensures { OnOk result (lists.new.items ≡ with_key i key lists.old.items) }
{
    let keys = &mut lists[i];
    keys.push(key)
}

/// Adds a key to a list. Past the end there is none, and nothing is done.
#[tactic(auto, using(crate::proofs::Keyed::with_key_past))]
fn add_key(lists: &mut Vec<Items<Key>>, i: usize, key: Key) -> Result<(), AllocError>
    ensures { OnOk result (lists.new.items ≡ with_key i key lists.old.items) }
{
    if i < lists.len() {
        push_at(lists, i, key)
    } else {
        Ok(())
    }
}

/// The lists with a key more in one of them.
fn with_key(lists: Items<Items<Key>>, i: usize, key: Key) -> Result<Items<Items<Key>>, AllocError>
    ensures { IfOk result (λ new. new ≡ with_key i key lists) }
{
    let mut lists = lists.into_vec();
    add_key(&mut lists, i, key)?;
    Ok(Items::from_vec(lists))
}

impl Reader {
    /// Before the first line.
    pub fn new(alloc: Global) -> Reader
        ensures { result ≡ start }
    {
        Reader {
            stage: Stage::Start,
            structs: Items::new(alloc),
            last: Items::new(alloc),
            plan: Plan {
                types: Items::new(alloc),
                names: Items::new(alloc),
                halves: Items::new(alloc),
                roots: Items::new(alloc),
                down: Items::new(alloc),
                keys: Items::new(alloc),
            },
            low: 0,
            ups: 0,
            last_key: None,
        }
    }

    fn take_first(&mut self) -> Result<(), AllocError>
        ensures { OnOk result (self.new ≡ after self.old line_is.First) }
    {
        let k = self.plan.types.len();
        self.plan.types.push(first_type(k))
    }

    fn take_struct(&mut self, name: Name) -> Result<(), AllocError>
        requires { length self.old.structs < 4294967296 }
        ensures { OnOk result (self.new ≡ after self.old (line_is.Struct name)) }
    {
        let s = self.structs.len() as u32;
        self.structs.push(name)?;
        self.plan.types.push(Ty::Struct(s))
    }

    fn take_type(&mut self, ty: Ty, text: Name) -> Result<(), AllocError>
        ensures { OnOk result (self.new ≡ after self.old (line_is.Type ty text)) }
    {
        self.last = text;
        self.plan.types.push(ty)
    }

    fn take_function(
        &mut self,
        alloc: Global,
        name: Name,
        half: Half,
        is_root: bool,
    ) -> Result<(), AllocError>
        ensures { OnOk result (self.new ≡ after self.old (line_is.Function name half is_root)) }
    {
        self.stage = Stage::Functions;
        self.plan.names.push(name)?;
        self.plan.halves.push(half)?;
        self.plan.roots.push(is_root)?;
        self.plan.down.push(false)?;
        self.plan.keys.push(Items::new(alloc))
    }

    fn take_down(&mut self, k: usize)
        requires { k < length self.old.plan.down }
        ensures { self.new ≡ after self.old (line_is.Down k) }
    {
        let count = self.plan.down.len();
        prove!(k < count);
        self.stage = Stage::Downs;
        self.plan.down.set(k, true);
        self.low = k + 1;
    }

    fn take_up(&mut self, k: usize)
        requires { k < length self.old.plan.halves }
        ensures { self.new ≡ after self.old (line_is.Up k) }
    {
        let count = self.plan.halves.len();
        prove!(k < count);
        self.stage = Stage::Ups;
        self.ups = k + 1;
        self.last_key = None;
    }

    fn take_key(&mut self, alloc: Global, key: Key) -> Result<(), AllocError>
        ensures { OnOk result (self.new ≡ after self.old (line_is.Key key)) }
    {
        let lists = mem::replace(&mut self.plan.keys, Items::new(alloc));
        self.plan.keys = with_key(lists, self.ups.saturating_sub(1), key)?;
        self.last_key = Some(key);
        Ok(())
    }

    fn take_heading(&mut self)
        ensures { self.new ≡ after self.old line_is.Heading }
    {
        self.stage = Stage::Types;
    }

    fn take_end(&mut self)
        ensures { self.new ≡ after self.old line_is.End }
    {
        self.stage = Stage::Done;
    }

    /// Takes a line that may come next. Where memory is wanting a part of it may be taken.
    fn take(&mut self, alloc: Global, line: Line) -> Result<(), AllocError>
        requires { IsNext self.old line }
        ensures { OnOk result (self.new ≡ after self.old line) }
    {
        match line {
            Line::Heading => self.take_heading(),
            Line::First => self.take_first()?,
            Line::Struct(name) => self.take_struct(name)?,
            Line::Type(ty, text) => self.take_type(ty, text)?,
            Line::Function(name, half, is_root) => {
                self.take_function(alloc, name, half, is_root)?
            }
            Line::Down(k) => self.take_down(k),
            Line::Up(k) => self.take_up(k),
            Line::Key(key) => self.take_key(alloc, key)?,
            Line::End => self.take_end(),
        }
        Ok(())
    }

    /// Takes the line that the bytes are, if it may come next.
    pub fn step(&mut self, alloc: Global, bytes: &[u8]) -> Result<(), Unread>
        ensures { Steps self.old bytes.now result self.new }
    {
        let line = line_of(alloc, self, bytes)?;
        self.take(alloc, line)?;
        Ok(())
    }
}
