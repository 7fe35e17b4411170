// The catalogue as a text, and what it is refused for.

use crate::*;
use std::alloc::{AllocError, Global};
use std::test::Fail;

const HEADER: &str = "name,kind,e1,e2,n12,g12,xt,xc,yt,yc,s,f12,t,p,q,h,cost\n";

const MAT: &str = "mat,ply,10000,10000,0,5000,100000,100000,100000,100000,50000,0,5000,1,0,1,10\n";

// what a text is refused for: the number of the record and the cause
fn refusal(alloc: Global, text: &[u8]) -> Option<(u32, StockCause)> {
    match read_stock(alloc, text) {
        Err(StockError::Refused(fault)) => Some((fault.row, fault.cause)),
        _ => None,
    }
}

// the first item of a catalogue is refused for a cause, or the catalogue is read
fn first_item(alloc: Global, line: &str) -> Result<Option<(u32, StockCause)>, AllocError> {
    let text = format!(in alloc; "{HEADER}{line}\n")?;
    Ok(refusal(alloc, text.as_bytes()))
}

#[test]
fn each_limit_is_met_and_one_beyond_is_not(rt: HostRuntime) -> Result<(), Fail> {
    let rows = [
        (
            "1000,10000,0,5000",
            "5000000,5000000,5000000,5000000,5000000",
            "0,5000",
            "10",
            None,
        ),
        (
            "400000,10000,0,5000",
            "5000000,5000000,5000000,5000000,5000000",
            "0,5000",
            "10",
            None,
        ),
        (
            "999,10000,0,5000",
            "5000000,5000000,5000000,5000000,5000000",
            "0,5000",
            "10",
            Some(StockCause::Range),
        ),
        (
            "400001,10000,0,5000",
            "5000000,5000000,5000000,5000000,5000000",
            "0,5000",
            "10",
            Some(StockCause::Range),
        ),
        (
            "20000,1000,0,5000",
            "5000000,5000000,5000000,5000000,5000000",
            "0,5000",
            "10",
            None,
        ),
        (
            "20000,400000,0,5000",
            "5000000,5000000,5000000,5000000,5000000",
            "0,5000",
            "10",
            None,
        ),
        (
            "20000,999,0,5000",
            "5000000,5000000,5000000,5000000,5000000",
            "0,5000",
            "10",
            Some(StockCause::Range),
        ),
        (
            "20000,400001,0,5000",
            "5000000,5000000,5000000,5000000,5000000",
            "0,5000",
            "10",
            Some(StockCause::Range),
        ),
        (
            "20000,10000,0,5000",
            "5000000,5000000,5000000,5000000,5000000",
            "0,5000",
            "10",
            None,
        ),
        (
            "20000,10000,999,5000",
            "5000000,5000000,5000000,5000000,5000000",
            "0,5000",
            "10",
            None,
        ),
        (
            "20000,10000,-1,5000",
            "5000000,5000000,5000000,5000000,5000000",
            "0,5000",
            "10",
            Some(StockCause::Range),
        ),
        (
            "20000,10000,1000,5000",
            "5000000,5000000,5000000,5000000,5000000",
            "0,5000",
            "10",
            Some(StockCause::Range),
        ),
        (
            "20000,10000,0,500",
            "5000000,5000000,5000000,5000000,5000000",
            "0,5000",
            "10",
            None,
        ),
        (
            "20000,10000,0,200000",
            "5000000,5000000,5000000,5000000,5000000",
            "0,5000",
            "10",
            None,
        ),
        (
            "20000,10000,0,499",
            "5000000,5000000,5000000,5000000,5000000",
            "0,5000",
            "10",
            Some(StockCause::Range),
        ),
        (
            "20000,10000,0,200001",
            "5000000,5000000,5000000,5000000,5000000",
            "0,5000",
            "10",
            Some(StockCause::Range),
        ),
        (
            "20000,10000,0,5000",
            "999,5000000,5000000,5000000,5000000",
            "0,5000",
            "10",
            Some(StockCause::Range),
        ),
        (
            "20000,10000,0,5000",
            "5000001,5000000,5000000,5000000,5000000",
            "0,5000",
            "10",
            Some(StockCause::Range),
        ),
        (
            "20000,10000,0,5000",
            "5000000,999,5000000,5000000,5000000",
            "0,5000",
            "10",
            Some(StockCause::Range),
        ),
        (
            "20000,10000,0,5000",
            "5000000,5000001,5000000,5000000,5000000",
            "0,5000",
            "10",
            Some(StockCause::Range),
        ),
        (
            "20000,10000,0,5000",
            "5000000,5000000,999,5000000,5000000",
            "0,5000",
            "10",
            Some(StockCause::Range),
        ),
        (
            "20000,10000,0,5000",
            "5000000,5000000,5000001,5000000,5000000",
            "0,5000",
            "10",
            Some(StockCause::Range),
        ),
        (
            "20000,10000,0,5000",
            "5000000,5000000,5000000,999,5000000",
            "0,5000",
            "10",
            Some(StockCause::Range),
        ),
        (
            "20000,10000,0,5000",
            "5000000,5000000,5000000,5000001,5000000",
            "0,5000",
            "10",
            Some(StockCause::Range),
        ),
        (
            "20000,10000,0,5000",
            "5000000,5000000,5000000,5000000,999",
            "0,5000",
            "10",
            Some(StockCause::Range),
        ),
        (
            "20000,10000,0,5000",
            "5000000,5000000,5000000,5000000,5000001",
            "0,5000",
            "10",
            Some(StockCause::Range),
        ),
        (
            "1000,1000,0,500",
            "1000,1000,1000,1000,1000",
            "0,5000",
            "10",
            None,
        ),
        (
            "1000,1000,0,500",
            "1000,1000,1000,1000,1000",
            "1000000000000,5000",
            "10",
            Some(StockCause::Cross),
        ),
        (
            "1000,1000,0,500",
            "1000,1000,1000,1000,1000",
            "-1000000000000,5000",
            "10",
            Some(StockCause::Cross),
        ),
        (
            "1000,1000,0,500",
            "1000,1000,1000,1000,1000",
            "1000000000001,5000",
            "10",
            Some(StockCause::Range),
        ),
        (
            "1000,1000,0,500",
            "1000,1000,1000,1000,1000",
            "-1000000000001,5000",
            "10",
            Some(StockCause::Range),
        ),
        (
            "20000,10000,0,5000",
            "5000000,5000000,5000000,5000000,5000000",
            "0,50",
            "10",
            None,
        ),
        (
            "20000,10000,0,5000",
            "5000000,5000000,5000000,5000000,5000000",
            "0,20000",
            "10",
            None,
        ),
        (
            "20000,10000,0,5000",
            "5000000,5000000,5000000,5000000,5000000",
            "0,49",
            "10",
            Some(StockCause::Range),
        ),
        (
            "20000,10000,0,5000",
            "5000000,5000000,5000000,5000000,5000000",
            "0,20001",
            "10",
            Some(StockCause::Range),
        ),
        (
            "20000,10000,0,5000",
            "5000000,5000000,5000000,5000000,5000000",
            "0,5000",
            "0",
            None,
        ),
        (
            "20000,10000,0,5000",
            "5000000,5000000,5000000,5000000,5000000",
            "0,5000",
            "1000000000",
            None,
        ),
        (
            "20000,10000,0,5000",
            "5000000,5000000,5000000,5000000,5000000",
            "0,5000",
            "-1",
            Some(StockCause::Range),
        ),
        (
            "20000,10000,0,5000",
            "5000000,5000000,5000000,5000000,5000000",
            "0,5000",
            "1000000001",
            Some(StockCause::Range),
        ),
        (
            "10000,10000,707,5000",
            "5000000,5000000,5000000,5000000,5000000",
            "0,5000",
            "10",
            None,
        ),
        (
            "10000,10000,708,5000",
            "5000000,5000000,5000000,5000000,5000000",
            "0,5000",
            "10",
            Some(StockCause::Poisson),
        ),
        (
            "20000,10000,0,5000",
            "1600000,100000,100000,100000,100000",
            "0,5000",
            "10",
            None,
        ),
        (
            "20000,10000,0,5000",
            "1600001,100000,100000,100000,100000",
            "0,5000",
            "10",
            Some(StockCause::Ratio),
        ),
        (
            "20000,10000,0,5000",
            "100000,1600001,100000,100000,100000",
            "0,5000",
            "10",
            Some(StockCause::Ratio),
        ),
        (
            "20000,10000,0,5000",
            "100000,100000,1600001,100000,100000",
            "0,5000",
            "10",
            Some(StockCause::Ratio),
        ),
        (
            "20000,10000,0,5000",
            "100000,100000,100000,1600001,100000",
            "0,5000",
            "10",
            Some(StockCause::Ratio),
        ),
        (
            "20000,10000,0,5000",
            "100000,100000,100000,100000,100000",
            "86602540,5000",
            "10",
            None,
        ),
        (
            "20000,10000,0,5000",
            "100000,100000,100000,100000,100000",
            "-86602540,5000",
            "10",
            None,
        ),
        (
            "20000,10000,0,5000",
            "100000,100000,100000,100000,100000",
            "86602541,5000",
            "10",
            Some(StockCause::Cross),
        ),
        (
            "20000,10000,0,5000",
            "100000,100000,100000,100000,100000",
            "-86602541,5000",
            "10",
            Some(StockCause::Cross),
        ),
        (
            "10000,10000,0,5000",
            "100000,100000,100000,100000,2442",
            "0,5000",
            "10",
            None,
        ),
        (
            "10000,10000,0,5000",
            "100000,100000,100000,100000,2441",
            "0,5000",
            "10",
            Some(StockCause::Slack),
        ),
        (
            "10000,10000,0,5000",
            "2441,2442,2442,2442,2442",
            "0,5000",
            "10",
            Some(StockCause::Slack),
        ),
        (
            "20000,20000,0,5000",
            "2000,2000,2000,2000,2000",
            "0,5000",
            "10",
            Some(StockCause::Slack),
        ),
        (
            "1000,1000,0,20000",
            "2442,2442,2442,2442,2442",
            "0,5000",
            "10",
            None,
        ),
        (
            "1000,1000,0,20000",
            "2441,2442,2442,2442,2442",
            "0,5000",
            "10",
            Some(StockCause::Slack),
        ),
    ];
    for (moduli, strengths, rest, cost, cause) in rows {
        let line = format!(in rt.alloc(); "a,ply,{moduli},{strengths},{rest},1,0,1,{cost}")?;
        let found = first_item(rt.alloc(), line.as_str())?;
        assert_eq!(rt; found, cause.map(|cause| (2, cause)), "at {line}");
    }
    Ok(())
}

#[test]
fn the_first_cause_is_answered(rt: HostRuntime) -> Result<(), Fail> {
    let rows = [
        ("a,ply,10000", StockCause::Fields),
        ("a", StockCause::Fields),
        ("\"\"", StockCause::Fields),
        (
            "1a,plies,x,10000,0,5000,100000,100000,100000,100000,50000,0,5000,1,0,1,10",
            StockCause::Name,
        ),
        (
            "abcdefghijklmnopq,ply,10000,10000,0,5000,100000,100000,100000,100000,50000,0,5000,1,0,1,10",
            StockCause::Name,
        ),
        (
            "mat,plies,10000,10000,0,5000,100000,100000,100000,100000,50000,0,5000,1,0,1,10",
            StockCause::Twice,
        ),
        (
            "a,plies,x,10000,0,5000,100000,100000,100000,100000,50000,0,5000,1,0,1,10",
            StockCause::Kind,
        ),
        (
            "a,ply,10000.0,10000,0,5000,100000,100000,100000,100000,50000,0,5000,1,0,1,10",
            StockCause::Number,
        ),
        (
            "a,ply,10000,10000,-0,5000,100000,100000,100000,100000,50000,0,5000,1,0,1,10",
            StockCause::Number,
        ),
        (
            "a,ply,010000,10000,0,5000,100000,100000,100000,100000,50000,0,5000,1,0,1,10",
            StockCause::Number,
        ),
        (
            "a,ply,1000000000000000,10000,0,5000,100000,100000,100000,100000,50000,0,5000,1,0,1,10",
            StockCause::Number,
        ),
        (
            "a,ply,100000000000000,10000,0,5000,100000,100000,100000,100000,50000,0,5000,1,0,1,10",
            StockCause::Range,
        ),
        (
            "a,ply,10000,10000,0,5000,100000,100000,100000,100000,50000,0,5000,1,0,1,",
            StockCause::Number,
        ),
        (
            "a,ply,10000,10000,708,5000,100,1600001,100000,100000,50000,0,5000,3,4,6,10",
            StockCause::Range,
        ),
        (
            "a,ply,10000,10000,708,5000,100000,1600001,100000,100000,50000,0,5000,3,4,6,10",
            StockCause::Poisson,
        ),
        (
            "a,ply,10000,10000,0,5000,100000,100000,100000,100000,50000,0,5000,3,4,6,10",
            StockCause::Unit,
        ),
        (
            "a,ply,10000,10000,0,5000,100000,100000,100000,100000,50000,0,5000,1001,0,1001,10",
            StockCause::Unit,
        ),
        (
            "a,ply,10000,10000,0,5000,100000,100000,100000,100000,50000,0,5000,0,-5,5,10",
            StockCause::Half,
        ),
    ];
    for (line, cause) in rows {
        let text = format!(in rt.alloc(); "{HEADER}{MAT}{line}\n")?;
        assert_eq!(rt;
            refusal(rt.alloc(), text.as_bytes()),
            Some((3, cause)),
            "at {line}"
        );
    }
    Ok(())
}

#[test]
fn a_whole_catalogue_is_refused(rt: HostRuntime) -> Result<(), Fail> {
    let alloc = rt.alloc();
    let stiff =
        "a,ply,400000,400000,0,200000,5000000,5000000,5000000,5000000,5000000,0,100,1,0,1,1\n";
    let soft = "b,ply,1000,1000,0,500,100000,100000,100000,100000,100000,0,100,1,0,1,1\n";
    let spread = format!(in alloc; "{HEADER}{stiff}{soft}")?;
    let short = "name,kind,e1,e2,n12,g12,xt,xc,yt,yc,s,f12,t,p,q,h\n";
    let swapped = "kind,name,e1,e2,n12,g12,xt,xc,yt,yc,s,f12,t,p,q,h,cost\n";
    assert_eq!(rt;
        refusal(alloc, b"".as_slice()),
        Some((0, StockCause::Empty))
    );
    assert_eq!(rt;
        refusal(alloc, b"\n\r\n".as_slice()),
        Some((0, StockCause::Empty))
    );
    assert_eq!(rt;
        refusal(alloc, short.as_bytes()),
        Some((1, StockCause::Header))
    );
    assert_eq!(rt;
        refusal(alloc, swapped.as_bytes()),
        Some((1, StockCause::Header))
    );
    assert_eq!(rt;
        refusal(alloc, HEADER.as_bytes()),
        Some((1, StockCause::NoItem))
    );
    assert_eq!(rt;
        refusal(alloc, spread.as_bytes()),
        Some((3, StockCause::Spread))
    );
    assert_eq!(rt;
        refusal(alloc, b"\xFF\xFE,kind\n".as_slice()),
        Some((1, StockCause::Header))
    );
    Ok(())
}

#[test]
fn there_is_room_for_64_items(rt: HostRuntime) -> Result<(), Fail> {
    let mut text = format!(in rt.alloc(); "{HEADER}")?;
    for k in 0..64 {
        let numbers = "10000,10000,0,5000,100000,100000,100000,100000,50000,0,5000,1,0,1,10";
        let line = format!(in rt.alloc(); "m{k},ply,{numbers}\n")?;
        text.push_str(line.as_str())?;
    }
    assert_eq!(rt; read_stock(rt.alloc(), text.as_bytes())?.items().len(), 64);
    text.push_str("again")?;
    assert_eq!(rt;
        refusal(rt.alloc(), text.as_bytes()),
        Some((66, StockCause::Many))
    );
    Ok(())
}

#[test]
fn fields_are_read_as_csv(rt: HostRuntime) -> Result<(), Fail> {
    let alloc = rt.alloc();
    let numbers = "10000,10000,0,5000,100000,100000,100000,100000,50000,0,5000,1,0,1,10";
    let rows = [
        ("\"a\",\"ply\"", None),
        (" a\t,\t ply ", None),
        ("\" a \",ply", None),
        (" \"a\",ply", Some((3, StockCause::Name))),
        ("\"a\"\"b\",ply", Some((3, StockCause::Name))),
        ("a b,ply", Some((3, StockCause::Name))),
    ];
    for (line, found) in rows {
        let text = format!(in alloc; "{HEADER}{MAT}\r\n\n{line},{numbers}\r\n")?;
        assert_eq!(rt; refusal(alloc, text.as_bytes()), found, "at {line}");
    }
    let marked = format!(in alloc; "\u{FEFF}{HEADER}{MAT}")?;
    assert_eq!(rt; refusal(alloc, marked.as_bytes()), None);
    Ok(())
}

#[test]
fn the_scale_covers_the_tank_with_carbon(rt: HostRuntime) -> Result<(), Fail> {
    let tank = "veil,ply,3500,3500,350,1296,60000,90000,60000,90000,40000,0,250,1,0,1,8
mat,ply,7000,7000,300,2692,90000,140000,90000,140000,60000,0,1100,1,0,1,11
wr,ply,15000,15000,150,3300,240000,180000,240000,180000,70000,0,800,1,0,1,14
wind55,pair,38000,9000,280,3400,800000,450000,35000,110000,45000,0,900,160,231,281,80
hoop,ply,38000,9000,280,3400,800000,450000,35000,110000,45000,0,900,0,1,1,80
";
    let carbon =
        "carbon,ply,181000,10300,280,7170,1500000,1500000,40000,246000,68000,0,125,1,0,1,200\n";
    let stiff =
        "stiff,ply,400000,400000,0,200000,5000000,5000000,5000000,5000000,5000000,0,100,1,0,1,1\n";
    let plain = format!(in rt.alloc(); "{HEADER}{tank}")?;
    let with_carbon = format!(in rt.alloc(); "{HEADER}{tank}{carbon}")?;
    let with_stiff = format!(in rt.alloc(); "{HEADER}{tank}{stiff}")?;
    let stock = read_stock(rt.alloc(), plain.as_bytes())?;
    assert_eq!(rt;
        stock.scale(),
        Scale {
            q0: 131072,
            floor: 1750
        }
    );
    assert_eq!(rt; stock.find(b"wr".as_slice()), Some(ItemNo(2)));
    assert_eq!(rt; stock.find(b"carbon".as_slice()), None);
    let stock = read_stock(rt.alloc(), with_carbon.as_bytes())?;
    assert_eq!(rt;
        stock.scale(),
        Scale {
            q0: 524288,
            floor: 1750
        }
    );
    assert_eq!(rt;
        refusal(rt.alloc(), with_stiff.as_bytes()),
        Some((7, StockCause::Spread))
    );
    Ok(())
}
