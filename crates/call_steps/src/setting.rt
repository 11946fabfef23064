//! Under what calls are served: a class table, and the heads of a trace.
ghost use Rattle.std.specs.Prelude.{◌≡◌, ◌<◌, length};
ghost use Rattle.call_steps.specs.Local.{row_of};

use crate::front::FrontEnd;
use size_classes::ClassTable;
use tc_model::Config;
use tc_units::{Class, ClassRow};

/// A class table, and the limits that the heads of a trace name.
#[derive(Drop)]
pub struct Setting {
    pub table: ClassTable,
    pub config: Config,
}

/// The row of a class.
pub(crate) fn row_of<F: FrontEnd>(setting: &Setting, class: Class) -> ClassRow
    requires { class.0 < length (F.rules setting.now).calls.rows }
    ensures { result ≡ row_of (F.rules setting.now).calls.rows class }
{
    setting.table.row(class)
}
