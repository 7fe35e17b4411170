// The text of a sample's catalogue.

ghost use Rattle.std.specs.Prelude.{◌≡◌, ◌++◌, [], IfOk, OnOk, Ok, string_bytes};
ghost use Rattle.lam_stock.specs.Catalogue.{stock_of};
ghost use Rattle.lam_sample.specs.Draws.{steps};
ghost use Rattle.lam_sample.specs.SampleStock.{sample_stock};
ghost use Rattle.lam_sample.specs.inside.CatalogueText.{fields_of, line_of, stock_text};

use crate::draws::Draws;
use crate::items::{Drawn, draw_item};
use std::alloc::{AllocError, Global};

const HEADER: &str = "name,kind,e1,e2,n12,g12,xt,xc,yt,yc,s,f12,t,p,q,h,cost\n";

/// The text of the catalogue that is drawn.
pub(crate) fn catalogue_text(alloc: Global, draws: &mut Draws) -> Result<String, AllocError>
    ensures text { IfOk result (λ s. stock_of (string_bytes s) ≡ Ok (sample_stock draws.old)) }
    ensures state { OnOk result (draws.new ≡ steps 66 draws.old) }
{
    records(alloc, draws)
}

// the names of the columns, and the lines of six items
fn records(alloc: Global, draws: &mut Draws) -> Result<String, AllocError>
    ensures text { IfOk result (λ s. string_bytes s ≡ stock_text draws.old) }
    ensures state { OnOk result (draws.new ≡ steps 66 draws.old) }
{
    let mut text = String::from_str(alloc, HEADER)?;
    for number in 1..7 {
        put_item(&mut text, number, &draw_item(draws))?;
    }
    Ok(text)
}

// puts the line of an item after a text
fn put_item(text: &mut String, number: u64, item: &Drawn) -> Result<(), AllocError>
    ensures { OnOk result (string_bytes text.new
        ≡ string_bytes text.old ++ line_of (fields_of number item.now) []) }
{
    write!(
        text,
        "i{number},pair,{},{},200,{},{},{},{},{},{},0,{},{},{},{},{}\n",
        item.e1,
        item.e2,
        item.g12,
        item.xt,
        item.xc,
        item.yt,
        item.yc,
        item.s,
        item.t,
        item.direction.p,
        item.direction.q,
        item.direction.h,
        item.cost
    )
}
