use models::UnknownModel;
use std::test::Fail;
use values::{Kind, Refusal, Setpoint};

// A display promises its text only where it succeeds, so one that always fails would keep that promise.
#[test]
fn displays_succeed(rt: HostRuntime) -> Result<(), Fail> {
    let refused = Refusal::Value.to_string(rt.alloc())?;
    assert_eq!(rt; refused.as_str(), "24");
    let setpoint = Setpoint::value(&905).to_string(rt.alloc())?;
    assert_eq!(rt; setpoint.as_str(), "400");
    let unknown = UnknownModel(7).to_string(rt.alloc())?;
    assert_eq!(rt; unknown.as_str(), "no model has code 7");
    Ok(())
}
