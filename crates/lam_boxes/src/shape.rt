// What all completions of a partial schedule have in common.

ghost use Rattle.std.specs.Prelude.{◌≡◌, ◌<◌, ◌≤ℤ◌, ◌+ℤ◌, ◌*ℤ◌, pos, length};
ghost use Rattle.lam_number.specs.inside.FixNumbers.{fix_numbers};
ghost use Rattle.lam_stock.specs.Scale.{scale_of};
ghost use Rattle.lam_job.specs.Partial.{half};
ghost use Rattle.lam_job.specs.Schedule.{items_of};
ghost use Rattle.lam_lamina.specs.inside.Table.{IsTableOf};
ghost use Rattle.lam_rules.specs.Conditions.{IsPartial};
ghost use Rattle.lam_boxes.specs.inside.Boxes as by;
ghost use Rattle.lam_boxes.specs.inside.Extensions as extended;
ghost use Rattle.lam_boxes.specs.inside.Parts.{AreFixed, FitEach, IsShape, MatrixReaches, extension_reach};
ghost use Rattle.lam_boxes.specs.inside.Tables.{AreBoxTablesOf};

use crate::extensions::{any_plies, fixed_sum};
use crate::sums::together;
use crate::tables::BoxTables;
use crate::three::Shape;
use lam_job::Job;
use lam_lamina::{Stiffnesses, Sym3};
use lam_number::{Enclosure, Fix};
use lam_rules::{Partial, fixed_plies};
use lam_stock::{Item, ItemNo, Stock};
use lam_wall::thickness;

/// The extension and the thickness of all walls that complete a partial schedule with open places, where the liner carries
/// no load.
pub(crate) fn shape_of(
    job: &Job,
    stock: &Stock,
    tables: &BoxTables,
    partial: &Partial,
) -> Shape<Fix<60>>
    requires tables { AreBoxTablesOf stock.now tables.now }
    requires partial { IsPartial stock.now job.now partial.now }
    requires open { length partial.now.prefix < half job.now partial.now.n }
    ensures value { result ≡ by.shape_of (fix_numbers 60) stock.now job.now partial.now }
    ensures shape { IsShape (fix_numbers 60) result }
{
    let _scale = stock.scale();
    let fixed = fixed_plies(job, partial);
    let own = thickness(stock, &fixed);
    let plies = fixed.items();
    let many = i64::from(partial.n - plies.len() as u8);
    let most = filled(own, many, tables.thickest);
    let least = filled(own, many, tables.thinnest);
    Shape {
        extension: extension_of(stock.items(), plies, &tables.stiffnesses, many, most),
        most,
        least,
    }
}

// the stiffness in extension of some plies and of so many others of one item, whichever that is
fn extension_of<N: Enclosure>(
    items: &[Item],
    plies: &[ItemNo],
    stiffnesses: &Stiffnesses<N>,
    many: i64,
    h: i64,
) -> Sym3<N>
    requires fixed { AreFixed h items.now plies.now }
    requires fit { FitEach many h items.now }
    requires table { IsTableOf N.numbers items.now stiffnesses.now }
    ensures value { result ≡ extended.extension N.numbers (scale_of items.now).q0 h
        (items_of items.now plies.now) many items.now }
    ensures reach { MatrixReaches N.numbers extension_reach result }
{
    let fixed = fixed_sum(items, plies, stiffnesses, h);
    let open = any_plies(items, stiffnesses, many, h);
    together(&fixed, &open)
}

// so thick, with so many plies of a thickness more
fn filled(own: i64, many: i64, t: i64) -> i64
    requires own_least { pos 0 ≤ℤ own }
    requires own_greatest { own ≤ℤ pos 1280000 }
    requires many_least { pos 0 ≤ℤ many }
    requires many_greatest { many ≤ℤ pos 56 }
    requires t_least { pos 0 ≤ℤ t }
    requires t_greatest { t ≤ℤ pos 20000 }
    ensures { result ≡ own +ℤ many *ℤ t }
{
    own + many * t
}
