// What is shown after each packet, as text, as a film or both.
use crate::film::Film;
use crate::wish::Wish;
use console::Refusal;
use frame::Format;
use stream::Screen;

// What is printed after each packet.
#[derive(Clone, Copy)]
enum Printed {
    Nothing,
    // What the screen shows and whether it is sure of it.
    Line,
    // The picture of that format too.
    Picture(Format),
}

#[derive(Drop)]
pub struct View {
    printed: Printed,
    film: Option<Film>,
}

fn print_line(rt: &HostRuntime, screen: &Screen) -> Result<(), Refusal> {
    let heap = rt.alloc();
    let line = match screen.shown() {
        Some(number) if screen.sure() => text::write_sure(heap, number)?,
        shown => text::write_unsure(heap, shown)?,
    };
    rt.println(line)?;
    Ok(())
}

fn print_picture(rt: &HostRuntime, screen: &Screen, format: Format) -> Result<(), Refusal> {
    for row in screen.picture().chunks(4 * format.across()) {
        rt.println(text::write_row(rt.alloc(), row)?)?;
    }
    Ok(())
}

impl View {
    pub fn new(rt: &HostRuntime, format: Format, wish: &Wish) -> Result<View, Refusal> {
        let printed = if wish.streams() {
            Printed::Nothing
        } else if wish.show {
            Printed::Picture(format)
        } else {
            Printed::Line
        };
        let film = wish
            .y4m
            .as_deref()
            .map(|name| Film::create(rt, name, format, wish.rate))
            .transpose()?;
        Ok(View { printed, film })
    }

    pub fn show(&mut self, rt: &HostRuntime, screen: &Screen) -> Result<(), Refusal> {
        match self.printed {
            Printed::Nothing => {}
            Printed::Line => print_line(rt, screen)?,
            Printed::Picture(format) => {
                print_line(rt, screen)?;
                print_picture(rt, screen, format)?;
            }
        }
        if let Some(film) = &mut self.film {
            film.add(rt.alloc(), screen)?;
        }
        Ok(())
    }
}
