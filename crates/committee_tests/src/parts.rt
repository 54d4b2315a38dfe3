// What is printed for the parts of a committee's work.
use committee::stages::Part;
use std::alloc::AllocError;

#[test]
fn parts_print_in_words(rt: HostRuntime) -> Result<(), AllocError> {
    let cases = [
        (Part::FirstGraded, "first graded agreement"),
        (Part::FirstReport, "first report"),
        (Part::SecondGraded, "second graded agreement"),
        (Part::SecondReport, "second report"),
        (Part::Base, "base agreement"),
    ];
    for (part, words) in cases {
        assert_eq!(rt; part.to_string(rt.alloc())?.as_str(), words);
    }
    Ok(())
}
