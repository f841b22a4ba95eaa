// How far pictures are apart.
ghost use Rattle.encoder.specs.Measure.{Worst};

// How far the worst pixel of a picture is from its source.
pub fn worst_distance(picture: &[u8], source: &[u8]) -> u8
    ensures { Worst picture.now source.now result }
{
    picture
        .iter()
        .zip(source)
        .map(|(a, b)| block::distance(*a, *b))
        .max()
        .unwrap_or(0)
}
