//! A class table, and the class of a size.
ghost use Rattle.std.specs.Prelude.{◌≡◌, ◌-◌, ◌<◌, ◌≤◌, ◌↔◌, ℕ, length, Some, IfOk, IfSome, IsNone, slice_get, slice_index};
ghost use Rattle.tc_units.specs.Classes.{class_of};
ghost use Rattle.size_classes.specs.Rows.{IsRow, IsTable, AreClasses, sizes_of};

use std::alloc::{AllocError, Global};
use std::marker::Model;
use tc_units::{Class, ClassRow};

/// The sizes of classes are multiples of so many bytes.
const SIZE_STEP: u64 = 8;

/// The rows of a table, by class. Contracts see it as the list of its rows.
#[derive(Debug, Drop)]
pub struct ClassTable {
    rows: Vec<ClassRow>,
    /// The class of each multiple of 8 bytes, from 0 on, that has one.
    classes: Vec<Class>,
}

impl Model for ClassTable {
    ghost use Rattle.std.specs.Prelude.{◌*◌, List};
    ghost use Rattle.tc_units.specs.declared.spans.ClassRow.{ClassRow};
    ghost use Rattle.size_classes.specs.Rows.{IsTable, AreClasses};

    ghost Value = { List ClassRow };

    ghost view = { λ t. t.rows.items };

    ghost invariant = { λ t. IsTable t.rows.items × AreClasses t.rows.items t.classes.items };
}

impl ClassTable {
    // A table of rows that were checked.
    pub(crate) fn new(alloc: Global, rows: Vec<ClassRow>) -> Result<Self, AllocError>
        requires { IsTable rows.items }
        ensures { IfOk result (λ table. table ≡ rows.items) }
    {
        let classes = classes_of(alloc, &rows)?;
        Ok(ClassTable { rows, classes })
    }

    /// How many classes there are: 1 to 120.
    pub fn len(&self) -> u32
        ensures value { result ≡ length self.now }
        ensures least { 1 ≤ result }
        ensures most { result ≤ 120 }
    {
        self.rows.len() as u32
    }

    /// The row of a class.
    pub fn row(&self, class: Class) -> ClassRow
        requires { class.0 < length self.now }
        ensures value { slice_get self.now class.0 ≡ Some result }
        ensures rules { IsRow result }
    {
        self.rows[usize::from(class.0)]
    }

    /// The rows of all classes.
    pub fn rows(&self) -> &[ClassRow]
        ensures value { result.now ≡ self.now }
        ensures table { IsTable self.now }
    {
        self.rows.as_slice()
    }

    /// The least class whose size is at least this. It is that of the next multiple of 8 bytes, since all sizes are such.
    pub fn class_of(&self, size: u64) -> Option<Class>
        ensures value { result ≡ class_of self.now size }
        ensures in_range { IfSome result (λ class. class.0 < length self.now) }
        ensures holds { IfSome result (λ class. size ≤ slice_index (sizes_of self.now) class.0) }
        ensures least { IfSome result
            (λ class. (k : ℕ) → k < class.0 → slice_index (sizes_of self.now) k < size) }
        ensures none { IsNone result ↔
            (slice_index (sizes_of self.now) (length self.now - 1) < size) }
    {
        self.classes.get(size.div_ceil(SIZE_STEP) as usize).copied()
    }
}

/// The class of each multiple of 8 bytes that has one.
fn classes_of(alloc: Global, rows: &[ClassRow]) -> Result<Vec<Class>, AllocError>
    requires { IsTable rows.now }
    ensures { IfOk result (λ classes. AreClasses rows.now classes.items) }
{
    let mut classes = Vec::new(alloc);
    let mut size = 0;
    while let Some(class) = class_in(rows, size) {
        classes.push(class)?;
        size += SIZE_STEP;
    }
    Ok(classes)
}

/// The least class whose size is at least this. It halves what is left of the rows at each step.
fn class_in(rows: &[ClassRow], size: u64) -> Option<Class>
    requires { IsTable rows.now }
    ensures { result ≡ class_of rows.now size }
{
    let mut low = 0;
    let mut high = rows.len();
    while low < high {
        let middle = low + (high - low) / 2;
        if u64::from(rows[middle].size) < size {
            low = middle + 1;
        } else {
            high = middle;
        }
    }
    if low < rows.len() {
        Some(Class(low as u8))
    } else {
        None
    }
}
