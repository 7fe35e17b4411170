// Which items are alike, and which are mirror images of each other.

use crate::{ItemNo, Stack, StockCause, StockError, StockFault, read_stock};
use std::test::Fail;

#[test]
fn likeness_and_mirror_images(rt: HostRuntime) -> Result<(), Fail> {
    let text = "name,kind,e1,e2,n12,g12,xt,xc,yt,yc,s,f12,t,p,q,h,cost
a,ply,10000,10000,0,5000,100000,100000,100000,100000,50000,0,5000,3,4,5,10
b,ply,10000,10000,0,5000,100000,100000,100000,100000,50000,0,5000,6,8,10,20
c,ply,10000,10000,0,5000,100000,100000,100000,100000,50000,0,5000,3,-4,5,10
d,pair,10000,10000,0,5000,100000,100000,100000,100000,50000,0,5000,3,4,5,10
e,ply,10000,10000,0,5000,100000,100000,100000,100000,50000,0,6000,3,4,5,10
f,ply,10000,10000,0,5000,100000,100000,100000,100000,50000,0,5000,4,3,5,10
";
    let stock = read_stock(rt.alloc(), text.as_bytes())?;
    let [a, b, c, d, e, f] = [
        ItemNo(0),
        ItemNo(1),
        ItemNo(2),
        ItemNo(3),
        ItemNo(4),
        ItemNo(5),
    ];
    assert_eq!(rt; stock.items().len(), 6);
    assert!(rt; stock.alike(a, b) && stock.alike(a, a) && !stock.alike(a, c));
    assert!(rt; !stock.alike(a, d) && !stock.alike(a, e) && !stock.alike(a, f));
    assert!(rt; stock.mirrors(a, c) && stock.mirrors(c, b) && !stock.mirrors(a, b));
    assert!(rt; !stock.mirrors(d, c) && !stock.mirrors(e, c) && !stock.mirrors(f, c));
    assert_eq!(rt;
        (stock.mirror_of(a), stock.mirror_of(c)),
        (Some(c), Some(a))
    );
    assert_eq!(rt; (stock.mirror_of(d), stock.mirror_of(f)), (None, None));
    Ok(())
}

#[test]
fn a_stack_gives_back_the_last_item(rt: HostRuntime) {
    let mut stack = Stack::new(rt.alloc());
    stack.push(ItemNo(7));
    stack.push(ItemNo(3));
    assert_eq!(rt; stack.items(), [ItemNo(7), ItemNo(3)].as_slice());
    let copy = stack.copied();
    assert_eq!(rt;
        (stack.pop(), stack.pop(), stack.pop()),
        (Some(ItemNo(3)), Some(ItemNo(7)), None)
    );
    assert_eq!(rt; copy.items(), [ItemNo(7), ItemNo(3)].as_slice());
}

#[test]
fn errors_print_their_names(rt: HostRuntime) -> Result<(), Fail> {
    let alloc = rt.alloc();
    let refused = StockError::Refused(StockFault {
        row: 2,
        cause: StockCause::Name,
    });
    assert_eq!(rt; format!(in alloc; "{refused}")?.as_str(), "Refused");
    let memory = StockError::Memory;
    assert_eq!(rt; format!(in alloc; "{memory}")?.as_str(), "Memory");
    Ok(())
}
