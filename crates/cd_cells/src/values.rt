//! A table of values.
ghost use Rattle.std.specs.Prelude.{[]};
ghost use Rattle.cd_cells.specs.Cells.{AreStored};
ghost use Rattle.cd_cells.specs.SharedCells.{AreShared};
ghost use Rattle.cd_cells.specs.OneProof.{stored_prop, shared_prop};

use crate::cell::{Look, Part, Stored, ValueId, small};
use crate::lists::Lists;
use crate::shared::Shared;
use std::alloc::{AllocError, Global};

/// A table of values, to which values are only added. A value, a name or a list of fields whose
/// number is none of 32 bits is answered as want of memory is.
#[derive(Drop)]
pub struct Values {
    cells: Vec<Stored>,
    lists: Lists,
    shared: Shared,
    ghost sound: { AreStored lists [] cells.items } by { stored_prop lists [] cells.items },
    ghost known: { AreShared lists cells.items shared } by { shared_prop lists cells.items shared },
}

impl Values {
    ghost use Rattle.std.specs.Prelude.{◌≡◌, ◌<◌, ◌≤◌, ◌+◌, [], ◌∷◌, ◌++◌, List, None, length};
    ghost use Rattle.std.specs.Prelude.{slice_index_or, pos, codes, OnOk, OnErr, IfOk, IfSome};
    ghost use Rattle.std.specs.Str.{chars};
    ghost use Rattle.cd_syntax.specs.Name.{IsLabel};
    ghost use Rattle.cd_model.specs.AllOf.{AllOf};
    ghost use Rattle.cd_model.specs.Thing.{IsValue, IsAtom, IsRecord, LabelsRise, NoField};
    ghost use Rattle.cd_model.specs.Thing.{Integer, Character, Atom as AnAtom, Pair as APair};
    ghost use Rattle.cd_model.specs.Thing.{Xml as AnXml, Record as ARecord, Closure as AClosure};
    ghost use Rattle.cd_cells.specs.Cells.{name_at, thing_at, fields_of, parts_at, thing_by};
    ghost use Rattle.cd_cells.specs.Cells.{HasEachOnce, IsPart, IsStored};
    ghost use Rattle.cd_cells.specs.Table.{table, names, IsAt, Grows};
    ghost use Rattle.cd_cells.specs.SharedCells.{HasCell};
    ghost use Rattle.cd_cells.specs.Looked.{looked, ArePartsBelow};

    /// The table without values and names.
    pub fn new(alloc: Global) -> Values
        ensures table { table result ≡ [] }
        ensures names { names result ≡ [] }
    {
        Values {
            cells: Vec::new(alloc),
            lists: Lists::new(alloc),
            shared: Shared::new(alloc),
        }
    }

    // Adds a cell.
    fn push(&mut self, cell: Stored) -> Result<ValueId, AllocError>
        requires { IsStored self.old.lists (table self.old) cell }
        ensures number { IfOk result (λ id. id.0 ≡ length (table self.old)) }
        ensures added { let one = thing_by self.old.lists (table self.old) cell in
            OnOk result (table self.new ≡ table self.old ++ one ∷ []) }
        ensures stored { IfOk result (λ id. HasCell self.new.cells.items id.0 cell) }
        ensures kept { OnErr result (table self.new ≡ table self.old) }
        ensures names { names self.new ≡ names self.old }
        ensures grows { Grows self.old self.new }
    {
        let id = ValueId(self.cells.len());
        self.cells.push(cell)?;
        Ok(id)
    }

    // Keeps an integer beside the cells.
    fn keep_integer(&mut self, n: i128) -> Result<u32, AllocError>
        ensures within { IfOk result (λ at. at < length self.new.lists.wide.items) }
        ensures found { IfOk result (λ at.
            slice_index_or self.new.lists.wide.items at (pos 0) ≡ n) }
        ensures kept { table self.new ≡ table self.old }
        ensures names { names self.new ≡ names self.old }
        ensures grows { Grows self.old self.new }
    {
        self.lists.keep_integer(n)
    }

    /// Adds an integer.
    ///
    /// # Errors
    ///
    /// Want of memory. No value is added.
    #[tactic(auto, using(crate::proofs::TableGrows::grew, crate::proofs::TableGrows::stayed))]
    pub fn int(&mut self, n: i128) -> Result<ValueId, AllocError>
        ensures number { IfOk result (λ id. id.0 ≡ length (table self.old)) }
        ensures added { OnOk result (table self.new ≡ table self.old ++ Integer n ∷ []) }
        ensures kept { OnErr result (table self.new ≡ table self.old) }
        ensures names { names self.new ≡ names self.old }
        ensures grows { Grows self.old self.new }
    {
        if let Ok(short) = i64::try_from(n) {
            return self.push(Stored::Short(short));
        }
        let at = self.keep_integer(n)?;
        self.push(Stored::Wide(at))
    }

    /// A character, which is added if no cell of it is known.
    ///
    /// # Errors
    ///
    /// Want of memory. No value is added.
    #[inline]
    #[tactic(auto, using(crate::proofs::TableGrows::stayed))]
    pub fn char(&mut self, c: char) -> Result<ValueId, AllocError>
        ensures is { IfOk result (λ id. IsAt (table self.new) id.0 (Character c)) }
        ensures kept { OnErr result (table self.new ≡ table self.old) }
        ensures names { names self.new ≡ names self.old }
        ensures grows { Grows self.old self.new }
    {
        match self.known_char(c) {
            Some(id) => Ok(id),
            None => self.new_char(c),
        }
    }

    fn known_char(&self, c: char) -> Option<ValueId>
        ensures { IfSome result (λ id. IsAt (table self.now) id.0 (Character c)) }
    {
        self.shared.letters.get(c as usize)
    }

    fn new_char(&mut self, c: char) -> Result<ValueId, AllocError>
        ensures is { IfOk result (λ id. IsAt (table self.new) id.0 (Character c)) }
        ensures kept { OnErr result (table self.new ≡ table self.old) }
        ensures names { names self.new ≡ names self.old }
        ensures grows { Grows self.old self.new }
    {
        let id = self.push(Stored::Letter(c))?;
        if !c.is_ascii() {
            return Ok(id);
        }
        // Where memory runs out here, the character may get a cell again.
        let _shared = self.shared.letters.put(c as usize, id);
        Ok(id)
    }

    /// The number of a label, or of another name, in the table.
    ///
    /// # Errors
    ///
    /// Want of memory.
    pub fn label(&mut self, name: &str) -> Result<u32, AllocError>
        ensures named { IfOk result (λ number. name_at (names self.new) number ≡ chars name.now) }
        ensures kept { table self.new ≡ table self.old }
        ensures grows { Grows self.old self.new }
    {
        self.lists.keep_name(name)
    }

    /// The name of a number, or the empty text where the number has none.
    pub fn name_of(&self, number: u32) -> &str
        ensures { chars result.now ≡ name_at (names self.now) number }
    {
        self.lists.names.get(number as usize)
    }

    /// What is known of every table: each cell is a value, and each name has one number.
    pub fn knows(&self)
        ensures sound { AllOf IsValue (table self.now) }
        ensures once { HasEachOnce (names self.now) }
    {
        // The contract of this call says that each name has one number.
        let _names = self.lists.names.len();
    }

    /// How many names there are. Each has one number.
    pub fn name_count(&self) -> usize
        ensures count { result ≡ length (names self.now) }
        ensures once { HasEachOnce (names self.now) }
    {
        self.lists.names.len()
    }

    /// The atom of a name, which is added if no cell of it is known.
    ///
    /// # Errors
    ///
    /// Want of memory. No value is added.
    pub fn atom(&mut self, name: &str) -> Result<ValueId, AllocError>
        requires { IsLabel (chars name.now) }
        ensures is { IfOk result (λ id. IsAt (table self.new) id.0 (AnAtom (chars name.now))) }
        ensures kept { OnErr result (table self.new ≡ table self.old) }
        ensures grows { Grows self.old self.new }
    {
        let name = self.label(name)?;
        match self.known_atom(name) {
            Some(id) => Ok(id),
            None => self.new_atom(name),
        }
    }

    // The atom whose name has this number.
    fn known_atom(&self, name: u32) -> Option<ValueId>
        ensures { let one = AnAtom (name_at (names self.now) name) in
            IfSome result (λ id. IsAt (table self.now) id.0 one) }
    {
        self.shared.atoms.get(name as usize)
    }

    fn new_atom(&mut self, name: u32) -> Result<ValueId, AllocError>
        requires { IsLabel (name_at (names self.old) name) }
        ensures is { let one = AnAtom (name_at (names self.old) name) in
            IfOk result (λ id. IsAt (table self.new) id.0 one) }
        ensures kept { OnErr result (table self.new ≡ table self.old) }
        ensures names { names self.new ≡ names self.old }
        ensures grows { Grows self.old self.new }
    {
        let id = self.push(Stored::Atom(name))?;
        // Where memory runs out here, the atom may get a cell again.
        let _shared = self.shared.atoms.put(name as usize, id);
        Ok(id)
    }

    /// The atom `nil`, with which sequences end. It is added if no cell of it is known.
    ///
    /// # Errors
    ///
    /// Want of memory. No value is added.
    #[inline]
    pub fn nil(&mut self) -> Result<ValueId, AllocError>
        ensures is { IfOk result (λ id. IsAt (table self.new) id.0 (AnAtom (codes "nil"))) }
        ensures kept { OnErr result (table self.new ≡ table self.old) }
        ensures grows { Grows self.old self.new }
    {
        match self.known_nil() {
            Some(id) => Ok(id),
            None => self.new_nil(),
        }
    }

    fn known_nil(&self) -> Option<ValueId>
        ensures { IfSome result (λ id. IsAt (table self.now) id.0 (AnAtom (codes "nil"))) }
    {
        self.shared.nil
    }

    fn new_nil(&mut self) -> Result<ValueId, AllocError>
        ensures is { IfOk result (λ id. IsAt (table self.new) id.0 (AnAtom (codes "nil"))) }
        ensures kept { OnErr result (table self.new ≡ table self.old) }
        ensures grows { Grows self.old self.new }
    {
        let id = self.atom("nil")?;
        self.shared.nil = Some(id);
        Ok(id)
    }

    /// Adds a pair.
    ///
    /// # Errors
    ///
    /// Want of memory. No value is added.
    #[inline]
    #[tactic(auto, using(crate::proofs::TableGrows::stayed))]
    pub fn pair(&mut self, first: ValueId, second: ValueId) -> Result<ValueId, AllocError>
        requires first { first.0 < length (table self.old) }
        requires second { second.0 < length (table self.old) }
        ensures number { IfOk result (λ id. id.0 ≡ length (table self.old)) }
        ensures added { let old = table self.old in
            let one = APair (thing_at old first.0) (thing_at old second.0) in
            OnOk result (table self.new ≡ old ++ one ∷ []) }
        ensures kept { OnErr result (table self.new ≡ table self.old) }
        ensures names { names self.new ≡ names self.old }
        ensures grows { Grows self.old self.new }
    {
        let first = small(first.0)?;
        let second = small(second.0)?;
        self.push(Stored::Pair(first, second))
    }

    /// Adds an XML value. The tag is an atom, and the attributes are a record.
    ///
    /// # Errors
    ///
    /// Want of memory. No value is added.
    #[tactic(auto, using(crate::proofs::TableGrows::stayed))]
    pub fn xml(
        &mut self,
        tag: ValueId,
        attributes: ValueId,
        content: ValueId,
    ) -> Result<ValueId, AllocError>
        requires tag { tag.0 < length (table self.old) }
        requires attributes { attributes.0 < length (table self.old) }
        requires content { content.0 < length (table self.old) }
        requires atom { IsAtom (thing_at (table self.old) tag.0) }
        requires fields { IsRecord (thing_at (table self.old) attributes.0) }
        ensures number { IfOk result (λ id. id.0 ≡ length (table self.old)) }
        ensures added { let old = table self.old in
            let one = AnXml (thing_at old tag.0) (thing_at old attributes.0)
            (thing_at old content.0) in
            OnOk result (table self.new ≡ old ++ one ∷ []) }
        ensures kept { OnErr result (table self.new ≡ table self.old) }
        ensures names { names self.new ≡ names self.old }
        ensures grows { Grows self.old self.new }
    {
        let tag = small(tag.0)?;
        let attributes = small(attributes.0)?;
        let content = small(content.0)?;
        self.push(Stored::Xml(tag, attributes, content))
    }

    // Keeps fields beside the cells.
    fn keep_parts(&mut self, parts: &[Part]) -> Result<(u32, u32), AllocError>
        ensures within { IfOk result (λ range.
            range.0 + range.1 ≤ length self.new.lists.parts.items) }
        ensures found { IfOk result (λ range.
            parts_at self.new.lists.parts.items range.0 range.1 ≡ parts.now) }
        ensures kept { table self.new ≡ table self.old }
        ensures names { names self.new ≡ names self.old }
        ensures grows { Grows self.old self.new }
    {
        self.lists.keep_parts(parts)
    }

    /// A record, whose labels rise strictly. It is added, unless it has no fields and a cell of
    /// that record is known.
    ///
    /// # Errors
    ///
    /// Want of memory. No value is added.
    pub fn record_of(&mut self, parts: &[Part]) -> Result<ValueId, AllocError>
        requires parts { AllOf (IsPart (names self.old) (length (table self.old))) parts.now }
        requires rise { LabelsRise None (fields_of (names self.old) (table self.old) parts.now) }
        ensures is { let one = ARecord (fields_of (names self.old) (table self.old) parts.now) in
            IfOk result (λ id. IsAt (table self.new) id.0 one) }
        ensures kept { OnErr result (table self.new ≡ table self.old) }
        ensures names { names self.new ≡ names self.old }
        ensures grows { Grows self.old self.new }
    {
        match parts {
            [] => self.no_fields(),
            [_, ..] => self.new_record(parts),
        }
    }

    #[tactic(auto, using(crate::proofs::TableGrows::grew, crate::proofs::TableGrows::stayed))]
    fn new_record(&mut self, parts: &[Part]) -> Result<ValueId, AllocError>
        requires parts { AllOf (IsPart (names self.old) (length (table self.old))) parts.now }
        requires rise { LabelsRise None (fields_of (names self.old) (table self.old) parts.now) }
        ensures is { let one = ARecord (fields_of (names self.old) (table self.old) parts.now) in
            IfOk result (λ id. IsAt (table self.new) id.0 one) }
        ensures kept { OnErr result (table self.new ≡ table self.old) }
        ensures names { names self.new ≡ names self.old }
        ensures grows { Grows self.old self.new }
    {
        let (from, count) = self.keep_parts(parts)?;
        self.push(Stored::Record(from, count))
    }

    // The record without fields.
    fn no_fields(&mut self) -> Result<ValueId, AllocError>
        ensures is { IfOk result (λ id. IsAt (table self.new) id.0 (ARecord NoField)) }
        ensures kept { OnErr result (table self.new ≡ table self.old) }
        ensures names { names self.new ≡ names self.old }
        ensures grows { Grows self.old self.new }
    {
        match self.known_no_fields() {
            Some(id) => Ok(id),
            None => self.new_no_fields(),
        }
    }

    fn known_no_fields(&self) -> Option<ValueId>
        ensures { IfSome result (λ id. IsAt (table self.now) id.0 (ARecord NoField)) }
    {
        self.shared.no_fields
    }

    fn new_no_fields(&mut self) -> Result<ValueId, AllocError>
        ensures is { IfOk result (λ id. IsAt (table self.new) id.0 (ARecord NoField)) }
        ensures kept { OnErr result (table self.new ≡ table self.old) }
        ensures names { names self.new ≡ names self.old }
        ensures grows { Grows self.old self.new }
    {
        let id = self.push(Stored::Record(0, 0))?;
        self.shared.no_fields = Some(id);
        Ok(id)
    }

    /// Adds the closure of a function, which sees these names.
    ///
    /// # Errors
    ///
    /// Want of memory. No value is added.
    #[tactic(auto, using(crate::proofs::TableGrows::grew, crate::proofs::TableGrows::stayed))]
    pub fn closure(&mut self, function: usize, parts: &[Part]) -> Result<ValueId, AllocError>
        requires { AllOf (IsPart (names self.old) (length (table self.old))) parts.now }
        ensures number { IfOk result (λ id. id.0 ≡ length (table self.old)) }
        ensures added { let old = table self.old in
            let one = AClosure function (fields_of (names self.old) old parts.now) in
            OnOk result (table self.new ≡ old ++ one ∷ []) }
        ensures kept { OnErr result (table self.new ≡ table self.old) }
        ensures names { names self.new ≡ names self.old }
        ensures grows { Grows self.old self.new }
    {
        let function = small(function)?;
        let (from, count) = self.keep_parts(parts)?;
        self.push(Stored::Closure(function, from, count))
    }

    /// The number of values.
    pub fn len(&self) -> usize
        ensures count { result ≡ length (table self.now) }
        ensures sound { AllOf IsValue (table self.now) }
    {
        self.cells.len()
    }

    /// What a value is. Its parts have lower numbers.
    pub fn look(&self, id: ValueId) -> Look<'_>
        requires { id.0 < length (table self.now) }
        ensures thing { let all = table self.now in
            looked (names self.now) all result ≡ thing_at all id.0 }
        ensures below { ArePartsBelow (names self.now) id.0 result }
    {
        self.lists.shown(self.cells[id.0])
    }
}
