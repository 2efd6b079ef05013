// A crossbar is a fabric and a carrier.
use super::carrier::Carrier;
use super::fabric::Fabric;

#[derive(Drop)]
pub struct Crossbar<C: Carrier> {
    pub(super) fabric: Fabric,
    pub(super) carrier: C,
}
