// The numbers of refusals, and the words for layers.
use message::refusals::{Layer, Refusal};
use std::alloc::AllocError;

#[test]
fn refusals_have_numbers_and_layers_words(rt: HostRuntime) -> Result<(), AllocError> {
    let refusals = [
        Refusal::PartiesOutOfRange,
        Refusal::UnknownAgreement,
        Refusal::AlreadyOver,
        Refusal::NoForm,
        Refusal::NotYetOver,
    ];
    assert_eq!(rt; refusals.map(u8::from), [1, 10, 20, 25, 28]);
    let layers = [Layer::Script, Layer::Base, Layer::Execution];
    assert_eq!(rt; layers.map(Layer::word), ["sheet", "small", "sitting"]);
    for layer in layers {
        assert_eq!(rt; layer.to_string(rt.alloc())?.as_str(), layer.word());
    }
    Ok(())
}
