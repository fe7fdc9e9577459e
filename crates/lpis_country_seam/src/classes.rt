//! Whether a region has the country's classes.

ghost use Rattle.std.specs.Prelude.{◌≤◌, length};
ghost use Rattle.lpis_tables.specs.Table.{most_rows};
ghost use Rattle.lpis_country_seam.specs.Faults.{ReportsSeam, seam_class_faults};

use crate::fault::SeamFault;
use lpis_release::is_same_class;
use lpis_tables::Class;

/// Looks for the first row at which two tables of classes differ.
pub(crate) fn check_classes(own: &[Class], all: &[Class]) -> Result<(), SeamFault>
    requires { length own.now ≤ most_rows }
    ensures { ReportsSeam (seam_class_faults 1 own.now all.now) result }
{
    let mut rest = all;
    for k in 0..own.len() {
        let Some((class, others)) = rest.split_first() else {
            return Err(SeamFault::Classes { row: k + 1 });
        };
        if !is_same_class(&own[k], class) {
            return Err(SeamFault::Classes { row: k + 1 });
        }
        rest = others;
    }
    if !rest.is_empty() {
        return Err(SeamFault::Classes { row: own.len() + 1 });
    }
    Ok(())
}
