//! Tests of elements, as they are printed.
mod usage;

use std::alloc::{AllocError, Global};
use std::process::Abort;
use std::test::Fail;
use trace_svg::elements::{
    Closing, Escaped, Face, Fill, GLYPHS, Glyph, Label, Mark, Opening, Rectangle, STYLE, Segment,
    Stroke,
};

/// An element, or a text in one.
#[derive(Clone, Copy)]
enum Element {
    Text(Escaped<'static>),
    Bar(Rectangle<'static>),
    Mark(Mark<'static>),
    Line(Segment),
    Label(Label<'static>),
    End(Closing),
}

/// Elements, and how they are printed.
const PRINTED: &[(Element, &str)] = &[
    // Markup is escaped.
    (
        Element::Text(Escaped("a<b> & \"c\" 'd' é")),
        "a&lt;b&gt; &amp; &quot;c&quot; &#39;d&#39; é",
    ),
    // Shapes are elements.
    (
        Element::Bar(Rectangle {
            fill: Fill::Done,
            left: 1,
            top: 2,
            width: 30,
            height: 4,
            tip: "a & b",
        }),
        "<rect class=\"done\" x=\"1\" y=\"2\" width=\"30\" height=\"4\"><title>a &amp; b</title></rect>\n",
    ),
    (
        Element::Mark(Mark {
            glyph: Glyph::Submit,
            x: 5,
            y: 6,
            tip: "<",
        }),
        "<use class=\"submit\" href=\"#submit\" x=\"5\" y=\"6\"><title>&lt;</title></use>\n",
    ),
    (
        Element::Line(Segment {
            stroke: Stroke::Grid,
            from: (1, 2),
            to: (3, 4),
        }),
        "<line class=\"grid\" x1=\"1\" y1=\"2\" x2=\"3\" y2=\"4\"/>\n",
    ),
    (
        Element::Label(Label {
            face: Face::Tick,
            x: 7,
            y: 8,
            text: ">",
        }),
        "<text class=\"tick\" x=\"7\" y=\"8\">&gt;</text>\n",
    ),
    // A document closes.
    (Element::End(Closing), "</svg>\n"),
];

/// What an element prints.
fn printed(alloc: Global, element: Element) -> Result<String, AllocError> {
    match element {
        Element::Text(text) => text.to_string(alloc),
        Element::Bar(bar) => bar.to_string(alloc),
        Element::Mark(mark) => mark.to_string(alloc),
        Element::Line(line) => line.to_string(alloc),
        Element::Label(label) => label.to_string(alloc),
        Element::End(end) => end.to_string(alloc),
    }
}

#[test]
fn each_element_is_printed(rt: HostRuntime) -> Result<(), Fail> {
    for (element, wanted) in PRINTED {
        let printed = printed(rt.alloc(), *element)?;
        assert!(rt; printed.as_str() == *wanted, "{printed}");
    }
    Ok(())
}

/// What stands at the front of a document of these sizes.
const FRONT: &str =
    "<svg xmlns=\"http://www.w3.org/2000/svg\" width=\"10\" height=\"20\" viewBox=\"0 0 10 20\">\n";

#[test]
fn a_document_opens(rt: HostRuntime) -> Result<(), Fail> {
    let opening = Opening {
        width: 10,
        height: 20,
    };
    let text = opening.to_string(rt.alloc())?;
    assert!(rt; text.starts_with(FRONT));
    assert!(rt; text.contains(STYLE));
    assert!(rt; text.ends_with(GLYPHS));
    Ok(())
}

#[test]
fn each_thing_has_its_word(rt: HostRuntime) {
    assert!(rt; Fill::Open.word() == "open");
    assert!(rt; Glyph::Shutdown.word() == "shutdown");
    assert!(rt; Stroke::Axis.word() == "axis");
    assert!(rt; Face::Key.word() == "key" && Face::Count.word() == "count");
}
