// The firing of a recipe as a picture (docs/BENCH.md, 'card curve').
#![tactic(auto)]

mod frame;
mod labels;
mod lines;
mod scale;

use card_segments::Segments;
use firing::Time;
use scale::Scale;
use wording::Text;

fn title(out: &mut Text, recipe: u64, time: Time) {
    out.fill(
        b"<svg xmlns=\"http://www.w3.org/2000/svg\" viewBox=\"0 0 1600 900\" font-family=\"sans-serif\" font-size=\"26\">\n<title>recipe $: ",
        &[recipe],
    );
    card_words::time(out, time);
    out.fill(
        b"</title>\n<rect width=\"1600\" height=\"900\" fill=\"#ffffff\"/>\n<text x=\"120\" y=\"48\" font-size=\"36\">recipe $</text>\n",
        &[recipe],
    );
    out.words(b"<text x=\"120\" y=\"92\" fill=\"#404040\">");
    card_words::time(out, time);
    out.words(b"</text>\n");
}

// The segments are those of the recipe.
pub fn draw(out: &mut Text, recipe: u16, segments: Segments) {
    let time = firing::takes(segments);
    let scale = Scale::of(time);
    title(out, u64::from(recipe), time);
    frame::legend(out, time.unsaid.is_some());
    frame::grid(out, scale);
    frame::numbers(out, scale);
    lines::draw(out, segments, scale);
    labels::draw(out, segments, scale);
    out.words(b"</svg>\n");
}
