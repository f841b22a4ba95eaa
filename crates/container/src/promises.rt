// The theorems about files, each as a contract.
ghost use Rattle.container.specs.Promise.{AnyPieces, CutAnywhere, HeaderReadBack, OneForm, ReadBack};

pub fn read_back()
    ensures header { HeaderReadBack }
    ensures packets { ReadBack }
{
    text::reads_back()
}

pub fn cut_anywhere()
    ensures { CutAnywhere }
{}

pub fn one_form()
    ensures { OneForm }
{}

pub fn any_pieces()
    ensures { AnyPieces }
{}
