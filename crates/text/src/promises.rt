// The theorems about the text forms, each as a contract.
ghost use Rattle.text.specs.Promise.{CutIntoWords, Examples, ReadsBack};

pub fn reads_back()
    ensures { ReadsBack }
{}

pub fn cut_into_words()
    ensures { CutIntoWords }
{}

pub fn worked_examples()
    ensures { Examples }
{}
