//! Text of a drawing.
use crate::tests::readers::same::same;
use dekarino_drawings::escaped;
use std::test::Fail;

#[test]
fn text_is_escaped(rt: HostRuntime) -> Result<(), Fail> {
    let made = escaped(rt.alloc(), "<a href=\"x\">Tom & Jörg</a>")?;
    same(
        &rt,
        made.as_str(),
        "&lt;a href=&quot;x&quot;&gt;Tom &amp; Jörg&lt;/a&gt;",
    );
    Ok(())
}
