// Pictures built, and decoded again.
use cases_shared::pictures::{self, Picture};
use cases_shared::say;
use std::io::{self, Write};

// A picture built, and decoded again.
fn there_and_back(
    out: &mut impl Write,
    built: &str,
    decoded: &str,
    picture: Picture,
) -> io::Result<()> {
    let mut words = [7u32; pictures::WORDS];
    let given = picture.build(&mut words);
    let sheet = pictures::filled(picture.n, given, &words);
    say::case(out, built, given)?;
    say::nodes(out, sheet.table)?;
    pictures::decode(out, decoded, sheet, picture.pixels(), picture.side())
}

pub fn all(out: &mut impl Write) -> io::Result<()> {
    there_and_back(out, "build, sheet A", "decode, sheet A", pictures::A)?;
    there_and_back(out, "build, (j)", "decode, (j)", pictures::J)?;
    there_and_back(
        out,
        "build, (k), one black pixel",
        "decode, (k)",
        pictures::BLACK_PIXEL,
    )?;
    there_and_back(
        out,
        "build, one white pixel",
        "decode, one white pixel",
        pictures::WHITE_PIXEL,
    )?;
    there_and_back(
        out,
        "build, all white",
        "decode, all white",
        pictures::WHITE,
    )?;
    there_and_back(
        out,
        "build, all black",
        "decode, all black",
        pictures::BLACK,
    )?;
    there_and_back(
        out,
        "build, document 003's Figure 1",
        "decode, document 003's Figure 1",
        pictures::FIGURE,
    )
}
