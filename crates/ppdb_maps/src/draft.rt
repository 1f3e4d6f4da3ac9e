// What the lines of a map text say together, while they are read.
ghost use Rattle.std.specs.Prelude.{ℕ, ◌<◌, ◌↔◌, [], List, IsTrue, OnOk, IfOk};
ghost use Rattle.ppdb_maps.specs.Loops.{IsTextAdded};
ghost use Rattle.ppdb_maps.specs.Reading.{IsTold};
ghost use Rattle.ppdb_maps.specs.Text.{HoldsWhat, Read};
ghost use Rattle.ppdb_maps.specs.declared.line.Line.{Line};
ghost use Rattle.ppdb_maps.specs.declared.line.Line.TheVariants.{Rows, Row, Cross, Gone, Method as SizesOf, Kept, Dropped, Slots, Slot, Signature, Document, Link};
ghost use Rattle.ppdb_maps.specs.declared.line.Line.TheVariants.{Shares};
ghost use Rattle.ppdb_maps.specs.Drafts.{Holds, IsClosed, IsReadyFor, AddsLine, IsAdded, IsAddedTo, HasLength};
ghost use Rattle.ppdb_maps.specs.Rules.{IsNamed};

use crate::bit_set::{BitSet, RowSet};
use crate::entries::{CrossLine, GoneLine, NameLine, RowLine, SignatureImage};
use crate::finish::{
    counts_of, crossed_in_order, documents_of, gone_in_order, methods_in_order, numbers_of,
    rows_in_order, signatures_in_order, slots_of,
};
use crate::line::Line;
use crate::map_text::MapText;
use crate::method::Method;
use crate::refusal::Refusal;
use crate::rule::Rule;
use ppdb_base::{Bytes, Memory, Run};
use std::alloc::Global;
use std::collections::{BTreeMap, BTreeSet};

/// What the lines so far say.
#[derive(Drop)]
pub struct Draft {
    counts: BTreeMap<u8, u32>,
    /// In the order of their lines.
    rows: Vec<RowLine>,
    /// In the order of their lines.
    crossed: Vec<CrossLine>,
    /// In the order of their lines.
    gone: Vec<GoneLine>,
    /// The rows of these three.
    moved: RowSet,
    /// In the order of their lines.
    methods: Vec<Method>,
    /// The numbers of `methods`.
    listed: BitSet,
    /// The last method, while its runs may follow; it is not among `methods` yet.
    current: Option<Method>,
    drops: BTreeSet<u32>,
    slotted: BTreeSet<u32>,
    slots: BTreeMap<(u32, u16), u16>,
    /// In the order of their lines.
    signatures: Vec<SignatureImage>,
    /// The methods of `signatures`.
    signed: BitSet,
    /// The new names of documents, by their names.
    documents: BTreeMap<Vec<u8>, Bytes>,
    link: Option<Bytes>,
    shares: bool,
}

impl Draft {
    /// No line was read.
    pub fn new(alloc: Global) -> Draft
        ensures { Holds [] result }
    {
        Draft {
            counts: BTreeMap::new(alloc),
            rows: Vec::new(alloc),
            crossed: Vec::new(alloc),
            gone: Vec::new(alloc),
            moved: RowSet::new(alloc),
            methods: Vec::new(alloc),
            listed: BitSet::new(alloc),
            current: None,
            drops: BTreeSet::new(alloc),
            slotted: BTreeSet::new(alloc),
            slots: BTreeMap::new(alloc),
            signatures: Vec::new(alloc),
            signed: BitSet::new(alloc),
            documents: BTreeMap::new(alloc),
            link: None,
            shares: false,
        }
    }

    /// Puts the open method among the others.
    pub fn close(&mut self) -> Result<(), Memory>
        ensures { OnOk result ((before : List Line) → Holds before self.old → IsClosed before self.new) }
    {
        if let Some(method) = self.current.take() {
            self.listed.insert(method.number())?;
            self.methods.push(method)?;
        }
        Ok(())
    }

    fn add_rows(&mut self, table: u8, rows: u32) -> Result<(), Refusal>
        ensures { IsAdded (Rows table rows) self.old result self.new }
    {
        if self.counts.contains_key(&table) {
            return Err(Refusal::Breaks(Rule::Repeated));
        }
        self.counts.insert(table, rows)?;
        Ok(())
    }

    fn add_row(&mut self, alloc: Global, table: u8, old: u32, new: u32) -> Result<(), Refusal>
        ensures { IsAdded (Row table old new) self.old result self.new }
    {
        if self.moved.contains(table, old) {
            return Err(Refusal::Breaks(Rule::Repeated));
        }
        if !self.counts.contains_key(&table) {
            return Err(Refusal::Breaks(Rule::Undeclared));
        }
        if table == 0x06 && self.drops.contains(&old) {
            return Err(Refusal::Breaks(Rule::NamesDropped));
        }
        self.moved.insert(alloc, table, old)?;
        self.rows.push(RowLine { table, old, new })?;
        Ok(())
    }

    fn add_cross(&mut self, alloc: Global, line: CrossLine) -> Result<(), Refusal>
        ensures { IsAdded (Cross line) self.old result self.new }
    {
        if self.moved.contains(line.table, line.old) {
            return Err(Refusal::Breaks(Rule::Repeated));
        }
        if !self.counts.contains_key(&line.table) {
            return Err(Refusal::Breaks(Rule::Undeclared));
        }
        self.moved.insert(alloc, line.table, line.old)?;
        self.crossed.push(line)?;
        Ok(())
    }

    fn add_gone(&mut self, alloc: Global, table: u8, old: u32) -> Result<(), Refusal>
        ensures { IsAdded (Gone table old) self.old result self.new }
    {
        if self.moved.contains(table, old) {
            return Err(Refusal::Breaks(Rule::Repeated));
        }
        if !self.counts.contains_key(&table) {
            return Err(Refusal::Breaks(Rule::Undeclared));
        }
        self.moved.insert(alloc, table, old)?;
        self.gone.push(GoneLine { table, old })?;
        Ok(())
    }

    fn add_method(
        &mut self,
        alloc: Global,
        method: u32,
        old_size: u32,
        new_size: u32,
    ) -> Result<(), Refusal>
        ensures { IsAdded (SizesOf method old_size new_size) self.old result self.new }
    {
        if self.listed.contains(method) {
            return Err(Refusal::Breaks(Rule::Repeated));
        }
        if self.drops.contains(&method) {
            return Err(Refusal::Breaks(Rule::NamesDropped));
        }
        self.current = Some(Method::new(alloc, method, old_size, new_size));
        Ok(())
    }

    fn add_drop(&mut self, method: u32) -> Result<(), Refusal>
        ensures { IsAdded (Dropped method) self.old result self.new }
    {
        if self.drops.contains(&method) {
            return Err(Refusal::Breaks(Rule::Repeated));
        }
        if self.is_named(method) {
            return Err(Refusal::Breaks(Rule::NamesDropped));
        }
        self.drops.insert(method)?;
        Ok(())
    }

    /// Whether the method has a `method`, a `row`, a `slots` or a `signature` line.
    fn is_named(&self, method: u32) -> bool
        ensures { (before : List Line) → IsClosed before self.now → IsTrue result ↔ IsNamed before method }
    {
        self.listed.contains(method)
            || self.moved.contains(0x06, method)
            || self.slotted.contains(&method)
            || self.signed.contains(method)
    }

    fn add_slots(&mut self, method: u32) -> Result<(), Refusal>
        ensures { IsAdded (Slots method) self.old result self.new }
    {
        if self.slotted.contains(&method) {
            return Err(Refusal::Breaks(Rule::Repeated));
        }
        if self.drops.contains(&method) {
            return Err(Refusal::Breaks(Rule::NamesDropped));
        }
        self.slotted.insert(method)?;
        Ok(())
    }

    fn add_slot(&mut self, method: u32, old: u16, new: u16) -> Result<(), Refusal>
        ensures { IsAdded (Slot method old new) self.old result self.new }
    {
        if self.slots.contains_key(&(method, old)) {
            return Err(Refusal::Breaks(Rule::Repeated));
        }
        if !self.slotted.contains(&method) {
            return Err(Refusal::Breaks(Rule::Undeclared));
        }
        self.slots.insert((method, old), new)?;
        Ok(())
    }

    fn add_signature(&mut self, method: u32, new: u32) -> Result<(), Refusal>
        ensures { IsAdded (Signature method new) self.old result self.new }
    {
        if self.signed.contains(method) {
            return Err(Refusal::Breaks(Rule::Repeated));
        }
        if self.drops.contains(&method) {
            return Err(Refusal::Breaks(Rule::NamesDropped));
        }
        self.signed.insert(method)?;
        self.signatures.push(SignatureImage { method, new })?;
        Ok(())
    }

    fn add_document(&mut self, document: NameLine) -> Result<(), Refusal>
        ensures { IsAdded (Document document) self.old result self.new }
    {
        let NameLine { old, new } = document;
        let old = old.into_vec();
        if self.documents.contains_key(old.as_slice()) {
            return Err(Refusal::Breaks(Rule::Repeated));
        }
        self.documents.insert(old, new)?;
        Ok(())
    }

    fn add_link(&mut self, value: Bytes) -> Result<(), Refusal>
        ensures { IsAdded (Link value) self.old result self.new }
    {
        if self.link.is_some() {
            return Err(Refusal::Breaks(Rule::Repeated));
        }
        self.link = Some(value);
        Ok(())
    }

    fn add_shares(&mut self) -> Result<(), Refusal>
        ensures { IsAdded Shares self.old result self.new }
    {
        if self.shares {
            return Err(Refusal::Breaks(Rule::Repeated));
        }
        self.shares = true;
        Ok(())
    }

    fn add_run(&mut self, run: Run) -> Result<(), Refusal>
        requires { 0 < run.length }
        ensures { IsAddedTo (Kept run) self.old result self.new }
    {
        match &mut self.current {
            Some(method) => method.add(run),
            None => Err(Refusal::Breaks(Rule::NoMethod)),
        }
    }

    /// Puts the open method among the others, unless the line may be among its runs.
    fn close_before(&mut self, line: &Line) -> Result<(), Memory>
        ensures { OnOk result ((before : List Line) → Holds before self.old → IsReadyFor line.now before self.new) }
    {
        match line {
            Line::Silent | Line::Kept(_) => Ok(()),
            _ => self.close(),
        }
    }

    /// Adds what a line says to a draft that can take the line.
    fn add_ready(&mut self, alloc: Global, line: Line) -> Result<(), Refusal>
        requires { HasLength line }
        ensures { (before : List Line) → IsReadyFor line before self.old → AddsLine before line result self.new }
    {
        match line {
            Line::Silent => Ok(()),
            Line::Kept(run) => self.add_run(run),
            Line::Rows { table, rows } => self.add_rows(table, rows),
            Line::Row { table, old, new } => self.add_row(alloc, table, old, new),
            Line::Cross(line) => self.add_cross(alloc, line),
            Line::Gone { table, old } => self.add_gone(alloc, table, old),
            Line::Method {
                method,
                old_size,
                new_size,
            } => self.add_method(alloc, method, old_size, new_size),
            Line::Dropped(method) => self.add_drop(method),
            Line::Slots(method) => self.add_slots(method),
            Line::Slot { method, old, new } => self.add_slot(method, old, new),
            Line::Signature { method, new } => self.add_signature(method, new),
            Line::Document(document) => self.add_document(document.into_inner()),
            Line::Link(value) => self.add_link(value.into_inner()),
            Line::Shares => self.add_shares(),
        }
    }

    /// Adds what a line says.
    pub fn add(&mut self, alloc: Global, line: Line) -> Result<(), Refusal>
        requires { HasLength line }
        ensures { IsAddedTo line self.old result self.new }
    {
        self.close_before(&line)?;
        self.add_ready(alloc, line)
    }

    /// Adds what a line after the first says, or refuses it by the rule that it breaks by itself.
    pub fn add_said(&mut self, alloc: Global, told: Result<Line, Refusal>) -> Result<(), Refusal>
        requires { (version : ℕ) × (text : List ℕ) × IsTold version text told }
        ensures { (version : ℕ) (text : List ℕ) → IsTold version text told → IsTextAdded version text self.old result self.new }
    {
        match told {
            Ok(line) => self.add(alloc, line),
            Err(refusal) => Err(refusal),
        }
    }

    /// The map of the lines.
    pub fn finish(self, alloc: Global) -> Result<MapText, Memory>
        requires { (version : ℕ) × (texts : List (List ℕ)) × (before : List Line) × Read version texts before × IsClosed before self }
        ensures { (before : List Line) → IsClosed before self → IfOk result (HoldsWhat before) }
    {
        let Draft {
            counts,
            rows,
            crossed,
            gone,
            moved: _,
            methods,
            listed: _,
            current: _,
            drops,
            slotted,
            slots,
            signatures,
            signed: _,
            documents,
            link,
            shares,
        } = self;
        let counts = counts_of(alloc, counts)?;
        let rows = rows_in_order(rows)?;
        let crossed = crossed_in_order(crossed)?;
        let gone = gone_in_order(gone)?;
        let methods = methods_in_order(methods)?;
        let drops = numbers_of(alloc, drops)?;
        let slotted = numbers_of(alloc, slotted)?;
        let slots = slots_of(alloc, slots)?;
        let signatures = signatures_in_order(signatures)?;
        let documents = documents_of(alloc, documents)?;
        Ok(MapText::new(
            counts, rows, crossed, gone, methods, drops, slotted, slots, signatures, documents,
            link, shares,
        ))
    }
}
