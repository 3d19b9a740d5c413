// An attribute that is there and one that is not, asked for by a closure and by a test that is named.
use crate::{Test, passes_test, says};
use xml::Attributes;

#[test]
fn asks_of_a_weight(rt: HostRuntime) {
    // tts:fontWeight="Bold": place and length of the name and of the value
    let cells = [0, 14, 14, 4];
    let attrs = Attributes {
        attrs: &cells,
        strings: b"tts:fontWeightBold",
        first: 0,
        many: 1,
    };
    let bold = |value: &[u8]| value == b"Bold".as_slice();
    assert!(rt; says(&attrs, b"TTS:FONTWEIGHT", bold));
    assert!(rt; !says(&attrs, b"tts:fontStyle", |_| true));
    assert!(rt; !says(&attrs, b"tts:fontWeight", |value| value.is_empty()));
    assert!(rt; passes_test(&attrs, b"tts:fontWeight", Test::Bold));
    assert!(rt; !passes_test(&attrs, b"tts:fontWeight", Test::Italic));
}
