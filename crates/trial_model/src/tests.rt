// The generator's first draw of 1 is 8 of 21, so the first supply is -2. What a whole model is, the contract says.
use crate::trial;
use model_text::Scale;
use mono_curve::{Ext, Listed};
use std::test::Fail;

#[test]
fn draws_the_first_supply(rt: HostRuntime) -> Result<(), Fail> {
    let model = trial(rt.alloc(), 1)?;
    assert_eq!(rt; model.scale(), Scale::PLAIN);
    assert_eq!(rt; model.nodes(), 200);
    assert_eq!(rt; model.arcs(), 1000);
    assert_eq!(rt; model.node_name(0), b"n1".as_slice());
    let supply = model.supply(0);
    assert_eq!(rt; supply.len(), 1);
    assert_eq!(rt; supply.item(0), Ext::At(-2));
    Ok(())
}
